//! Trials of one byte over GF(8), in three generations of three rows.
ghost use Rattle.std.specs.Prelude.{◌≡◌, ◌<◌, ◌≤◌, ℕ, Some, IfOk, flat_map};
ghost use Rattle.kk_code.specs.Decoding.{answer};
ghost use Rattle.kk_code.specs.Ticket.{generations};
ghost use Rattle.kk_assemble.specs.FileBits.{cut};
ghost use Rattle.kk_frame.specs.declared.frame.TheConstants.{FRAME_BYTES};
ghost use Rattle.kk_frame.specs.declared.limits.Limits.{Limits};
ghost use Rattle.kk_frame.specs.Events.{taken};
ghost use Rattle.kk_frame.specs.Generation.{rows_of};

use crate::words::Words;
use kk_code::Ticket;
use kk_outside::{Alloc, GATE_BYTES, Gate, Got, MemoryGate};
use kk_trial::{OperatorChannel, Trial, make_trial};
use kk_worked::{ONE_BYTE, frame};
use rand_core::Rng;
use std::alloc::Global;
use std::test::*;

/// A trial on the radius, of which one half is erased and the other injected. A receiver that takes what all gates give, as it does
/// with an idle of 300 and a most of 10,000,000, has of each generation rows that decode to the file's message.
fn trial_on_the_radius<R: Rng>(
    alloc: Global,
    ticket: &Ticket,
    gates: u32,
    rng: &mut R,
) -> Result<Trial, Alloc>
    requires { 1 ≤ gates }
    ensures { (g : ℕ) (limits : Limits) → g < generations ticket.now → limits.idle ≡ 300 → limits.most ≡ 10000000
        → IfOk result (λ trial. answer ticket.now.code (rows_of g (flat_map (λ gate. taken FRAME_BYTES ticket.now limits gate.left) trial.gates.items))
        ≡ Some (cut ticket.now.code trial.file.items g)) }
{
    let code = ticket.code();
    let half = (code.l() - code.k()) / 2;
    let channel = OperatorChannel {
        erase: half,
        inject: half,
    };
    make_trial(alloc, ticket, channel, gates, rng)
}

/// The word of the file, and five for each of the first two generations.
const ELEVEN_WORDS: [u64; 11] = [0xA0FF_FFFF_FFFF_FFFF, 0, 1, 3, 0, 1, 0, 1, 3, 0, 1];

/// Whether the gate gives just these frames, each as a datagram of its own.
fn gives(gate: &mut MemoryGate, frames: &[(u8, u8)]) -> bool {
    let mut buf = [0; GATE_BYTES];
    for (generation, row) in frames {
        if gate.next(&mut buf) != Ok(Got::Datagram(20))
            || &buf[..20] != frame(0, *generation, *row).as_slice()
        {
            return false;
        }
    }
    gate.next(&mut buf) == Ok(Got::Over)
}

#[test]
fn nine_frames_over_two_gates(rt: HostRuntime) -> Result<(), Fail> {
    let ticket = Ticket::read(ONE_BYTE)?;
    let mut rng = Words::new(ELEVEN_WORDS);
    let mut trial = trial_on_the_radius(rt.alloc(), &ticket, 2, &mut rng)?;
    assert_eq!(rt; trial.file.as_slice(), [0xA0].as_slice());
    assert_eq!(rt; trial.gates.len(), 2);
    let even = [(0, 28), (0, 12), (1, 56), (2, 16), (2, 1)];
    assert!(rt; gives(&mut trial.gates[0], &even));
    assert!(rt; gives(&mut trial.gates[1], &[(0, 62), (1, 24), (1, 9), (2, 32)]));
    Ok(())
}

#[test]
fn a_file_of_two_words(rt: HostRuntime) -> Result<(), Fail> {
    let ticket = Ticket::read("kk1:00000001:8:000000000000001b:4:1:9")?;
    let mut rng = Words::new([
        0x0102_0304_0506_0708,
        0xA1A2_A3A4_A5A6_A7A8,
        0,
        0,
        0,
        0,
        0,
        0,
        0,
        0,
        0,
    ]);
    let trial = trial_on_the_radius(rt.alloc(), &ticket, 16, &mut rng)?;
    let bytes = [1, 2, 3, 4, 5, 6, 7, 8, 0xA1];
    assert_eq!(rt; trial.file.as_slice(), bytes.as_slice());
    assert_eq!(rt; trial.gates.len(), 16);
    Ok(())
}
