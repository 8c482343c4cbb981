//! Row spaces: a survey, rows of one word and of two, sums and meets.
ghost use Rattle.std.specs.Prelude.{◌≡◌, ◌^◌, ◌<◌, All};
ghost use Rattle.kk_rows.specs.Span.{in_span, dimension};
ghost use Rattle.kk_rows.specs.Rows.{numbers};

use kk_rows::{Alloc, Row, RowSpace, combination};
use std::alloc::{AllocError, AllocFailed};
use std::test::Fail;

/// How many of the rows aren't sums of rows before them, and whether `v` is a sum of them.
fn survey(rows: &[Row], v: Row) -> (u32, bool)
    requires rows_fit { All (λ r. r < 2 ^ 6) (numbers rows.now) }
    requires v_fits { v.0 < 2 ^ 6 }
    ensures count { result.0 ≡ dimension (numbers rows.now) }
    ensures inside { result.1 ≡ in_span (numbers rows.now) v.0 }
{
    let mut space = RowSpace::new(6);
    for row in rows {
        let _ = space.insert(*row);
    }
    (space.rank(), space.contains(v))
}

#[test]
fn a_survey_counts_rows_and_finds_a_sum(rt: HostRuntime) {
    let rows = [Row(9), Row(18), Row(8), Row(1)];
    assert_eq!(rt; survey(&rows, Row(27)), (3, true));
    assert_eq!(rt; survey(&rows[..0], Row(27)), (0, false));
}

#[test]
fn a_combination_is_the_sum_of_the_rows_at_the_ones_of_a_word(rt: HostRuntime) {
    let rows = [Row(13), Row(17), Row(34)];
    assert_eq!(rt; combination(&rows, 3), Row(28));
    assert_eq!(rt; combination(&rows, 15), Row(62));
    assert_eq!(rt; combination(&rows, 8), Row(0));
}

/// The span of 9, 18 and `last`, of six bits.
fn spanned(last: Row) -> RowSpace
    requires { last.0 < 2 ^ 6 }
    ensures { result.width ≡ 6 }
{
    let mut space = RowSpace::new(6);
    let _ = space.insert(Row(9));
    let _ = space.insert(Row(18));
    let _ = space.insert(last);
    space
}

#[test]
fn inserts_count_the_rows_outside_the_span(rt: HostRuntime) -> Result<(), Fail> {
    let mut space = RowSpace::new(6);
    assert_eq!(rt; space.insert(Row(9)), Some(1));
    assert_eq!(rt; space.insert(Row(18)), Some(2));
    assert_eq!(rt; space.insert(Row(8)), Some(3));
    assert_eq!(rt; space.insert(Row(1)), None);
    assert_eq!(rt; space.rank(), 3);
    assert_eq!(rt; space.width(), 6);
    Ok(())
}

#[test]
fn rows_are_reduced(rt: HostRuntime) -> Result<(), Fail> {
    let space = spanned(Row(8));
    assert_eq!(rt; space.rows(), [Row(18), Row(8), Row(1)].as_slice());
    assert_eq!(rt; space.reduce(Row(12)), Row(4));
    assert!(rt; space.contains(Row(1)));
    assert!(rt; !space.contains(Row(12)));
    Ok(())
}

#[test]
fn two_spaces_meet_in_two_rows(rt: HostRuntime) -> Result<(), Fail> {
    let a = spanned(Row(8));
    let b = spanned(Row(36));
    let meet = RowSpace::meet(&a, &b);
    assert_eq!(rt; meet.rows(), [Row(18), Row(9)].as_slice());
    assert_eq!(rt; RowSpace::sum_dim(&a, &b), 4);
    assert_eq!(rt;
        RowSpace::sum(&a, &b).rows(),
        [Row(36), Row(18), Row(8), Row(1)].as_slice()
    );
    Ok(())
}

#[test]
fn rows_of_one_word_and_of_a_bit_more_fit(rt: HostRuntime) -> Result<(), Fail> {
    let mut word = RowSpace::new(64);
    assert_eq!(rt; word.insert(Row(0xffff_ffff_ffff_ffff)), Some(1));
    assert_eq!(rt; word.insert(Row(1)), Some(2));
    assert_eq!(rt;
        word.rows(),
        [Row(0xffff_ffff_ffff_fffe), Row(1)].as_slice()
    );
    let mut more = RowSpace::new(65);
    assert_eq!(rt; more.insert(Row(0x1_0000_0000_0000_0001)), Some(1));
    assert_eq!(rt; more.insert(Row(1)), Some(2));
    assert_eq!(rt;
        more.rows(),
        [Row(0x1_0000_0000_0000_0000), Row(1)].as_slice()
    );
    Ok(())
}

#[test]
fn the_widest_rows_fit(rt: HostRuntime) -> Result<(), Fail> {
    let mut space = RowSpace::new(128);
    assert_eq!(rt;
        space.insert(Row(0xffff_ffff_ffff_ffff_ffff_ffff_ffff_ffff)),
        Some(1)
    );
    assert_eq!(rt; space.insert(Row(1)), Some(2));
    assert_eq!(rt;
        space.rows(),
        [Row(0xffff_ffff_ffff_ffff_ffff_ffff_ffff_fffe), Row(1)].as_slice()
    );
    Ok(())
}

#[test]
fn errors_of_memory_become_alloc(rt: HostRuntime) -> Result<(), Fail> {
    assert_eq!(rt; Alloc::from(AllocError), Alloc);
    assert_eq!(rt; Alloc::from(AllocFailed { value: 7u8 }), Alloc);
    let text = format!(in rt.alloc(); "{}", Alloc)?;
    assert_eq!(rt; text.as_str(), "out of memory");
    Ok(())
}
