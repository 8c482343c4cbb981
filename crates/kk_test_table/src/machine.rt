//! Callers of the crate, and the worked calls and moves.
ghost use Rattle.std.specs.Prelude.{◌≡◌, ◌^◌, ◌<◌, length, take, IfOk};
ghost use Rattle.kk_machine.specs.World.{run, AllMay};

use kk_machine::{CLOSED, Call, Move, Reply, Spaces, World};
use kk_rows::{Alloc, Row};
use std::alloc::Global;
use std::process::Abort;
use std::test::Fail;

/// Closes a generation, and then inserts a row into it, which is late.
fn insert_too_late(spaces: &mut Spaces, generation: u32, row: Row) -> Reply
    requires generation { generation < length spaces.old.logs }
    requires row { row.0 < 2 ^ spaces.old.width }
    ensures { result ≡ Reply.Late }
{
    let _ = spaces.apply(&Call::Freeze { generation });
    spaces.apply(&Call::Insert { generation, row })
}

/// Makes moves up to the first that isn't allowed, and tells how many it made. [`kk_machine::laws::every_run_is_legal`] says
/// what world they lead to.
fn make_allowed(alloc: Global, world: &mut World, moves: &[Move]) -> Result<usize, Alloc>
    ensures made { IfOk result (λ n. world.new ≡ run world.old (take n moves.now)) }
    ensures allowed { IfOk result (λ n. AllMay world.old (take n moves.now)) }
{
    for (made, step) in moves.iter().enumerate() {
        if !world.may(step) {
            return Ok(made);
        }
        let _ = world.step(alloc, step)?;
    }
    Ok(moves.len())
}

/// Answers a call on the one generation, whose row has at most six bits.
fn answer(rt: &impl Abort, spaces: &mut Spaces, call: Call) -> Reply
    requires one { length spaces.old.logs ≡ 1 }
    requires six { spaces.old.width ≡ 6 }
    ensures one { length spaces.new.logs ≡ 1 }
    ensures six { spaces.new.width ≡ 6 }
{
    assert!(rt; call.generation() == 0 && call.fits(6));
    spaces.apply(&call)
}

/// Makes a move that is allowed.
fn make(
    rt: &impl Abort,
    alloc: Global,
    world: &mut World,
    step: Move,
) -> Result<Option<Reply>, Fail>
    ensures width { world.new.width ≡ world.old.width }
    ensures generations { length world.new.words ≡ length world.old.words }
{
    assert!(rt; world.may(&step));
    Ok(world.step(alloc, &step)?)
}

/// The rows that an actor has seen of the one generation.
fn rows_seen<'a>(rt: &impl Abort, world: &'a World, actor: u32) -> &'a [Row] {
    let look = Move::Look {
        actor,
        call: Call::Peek { generation: 0 },
    };
    assert!(rt; world.may(&look));
    world.seen(actor, 0)
}

fn insert(row: u128) -> Call {
    Call::Insert {
        generation: 0,
        row: Row(row),
    }
}

fn look(actor: u32, row: u128) -> Move {
    Move::Look {
        actor,
        call: insert(row),
    }
}

fn put(actor: u32, row: u128) -> Move {
    Move::Put {
        actor,
        generation: 0,
        row: Row(row),
    }
}

#[test]
fn one_thread_answers_calls_in_turn(rt: HostRuntime) -> Result<(), Fail> {
    let mut spaces = Spaces::new(rt.alloc(), 1, 6)?;
    let freeze = Call::Freeze { generation: 0 };
    let peek = Call::Peek { generation: 0 };
    let calls = [
        (insert(13), Reply::Innovative { rank: 1 }),
        (insert(13), Reply::Redundant),
        (insert(0), Reply::Redundant),
        (freeze, Reply::Frozen { rank: 1 }),
        (insert(17), Reply::Late),
        (freeze, Reply::Already),
        (peek, Reply::Rank { rank: 1 }),
        (peek, Reply::Rank { rank: 1 }),
    ];
    for (call, reply) in calls {
        assert_eq!(rt; answer(&rt, &mut spaces, call), reply);
    }
    assert_eq!(rt; spaces.log(0), [Row(13)].as_slice());
    assert!(rt; spaces.is_closed(0));
    Ok(())
}

#[test]
fn two_actors_insert_the_same_row(rt: HostRuntime) -> Result<(), Fail> {
    let mut world = World::new(rt.alloc(), 1, 6)?;
    let shut = Move::Shut {
        actor: 2,
        generation: 0,
    };
    let moves = [
        (Move::Split, None),
        (Move::Split, None),
        (look(1, 13), None),
        (look(2, 13), None),
        (put(1, 13), Some(Reply::Innovative { rank: 1 })),
        (put(2, 13), None),
        (look(2, 13), Some(Reply::Redundant)),
        (shut, Some(Reply::Frozen { rank: 1 })),
        (look(1, 17), Some(Reply::Late)),
        (Move::Join { actor: 1 }, None),
    ];
    for (step, reply) in moves {
        assert_eq!(rt; make(&rt, rt.alloc(), &mut world, step)?, reply);
    }
    assert_eq!(rt; rows_seen(&rt, &world, 2), [Row(13)].as_slice());
    assert!(rt; !world.may(&look(0, 13)) && !world.may(&look(1, 13)));
    assert_eq!(rt;
        (world.word(0, 0), world.word(0, 1), world.word(0, 2)),
        (13, CLOSED, 0)
    );
    Ok(())
}

#[test]
fn moves_are_made_while_they_are_allowed(rt: HostRuntime) -> Result<(), Fail> {
    let mut world = World::new(rt.alloc(), 1, 6)?;
    let moves = [
        Move::Split,
        Move::Join { actor: 1 },
        Move::Join { actor: 1 },
    ];
    assert_eq!(rt; make_allowed(rt.alloc(), &mut world, &moves)?, 2);
    let mut spaces = Spaces::new(rt.alloc(), 1, 6)?;
    assert_eq!(rt; insert_too_late(&mut spaces, 0, Row(13)), Reply::Late);
    Ok(())
}
