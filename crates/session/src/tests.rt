//! What small inputs are answered, with calls and without.
use crate::run::run;
use std::process::Abort;
use std::test::Fail;

// Whether the input is answered by these lines, with calls and without.
fn answers(rt: &(impl Abort + AllocGlobal), input: &[u8], lines: &[u8]) -> Result<(), Fail> {
    let with_calls = run::<true>(rt.alloc(), input)?;
    assert!(rt; with_calls.as_slice() == lines);
    let without = run::<false>(rt.alloc(), input)?;
    assert!(rt; without.as_slice() == lines);
    Ok(())
}

#[test]
fn nothing_is_answered_by_nothing(rt: HostRuntime) -> Result<(), Fail> {
    answers(&rt, b"", b"")
}

#[test]
fn ends_before_opening(rt: HostRuntime) -> Result<(), Fail> {
    answers(&rt, b"E?", b"end 0 0 0 0\n")
}

#[test]
fn stops_at_an_unknown_byte(rt: HostRuntime) -> Result<(), Fail> {
    answers(&rt, b"W?E", b"refused 23 0\nrefused 21 1\n")
}

#[test]
fn stops_where_operands_are_missing(rt: HostRuntime) -> Result<(), Fail> {
    answers(&rt, b"V\x01\0\x02\0\x03", b"refused 22 0\n")?;
    answers(&rt, b"N", b"refused 22 0\n")?;
    answers(&rt, b"WN\x03ab", b"refused 23 0\nrefused 22 1\n")?;
    answers(&rt, b"O", b"refused 22 0\n")
}

#[test]
fn takes_one_name_of_1_to_40_bytes(rt: HostRuntime) -> Result<(), Fail> {
    answers(
        &rt,
        b"N\0N\x02\xFF\nN\x01bE",
        b"refused 24 0\nname \xFF\n\nrefused 24 6\nend 0 0 0 0\n",
    )?;
    answers(
        &rt,
        b"N\x290123456789012345678901234567890123456789+",
        b"refused 24 0\n",
    )?;
    answers(
        &rt,
        b"N\x280123456789012345678901234567890123456789",
        b"name 0123456789012345678901234567890123456789\n",
    )
}

#[test]
fn takes_coordinates_to_255(rt: HostRuntime) -> Result<(), Fail> {
    answers(&rt, b"V\xFF\0\xFF\0\xFF\0V\0\x01\0\0\0\0", b"refused 1 7\n")
}

#[test]
fn takes_gathered_corners_that_differ(rt: HostRuntime) -> Result<(), Fail> {
    answers(
        &rt,
        b"V\0\0\0\0\0\0V\x01\0\0\0\0\0T\0\0\x01\0\x02\0T\0\0\x01\0\x01\0",
        b"refused 4 14\nrefused 5 21\n",
    )
}

#[test]
fn knows_two_gauges(rt: HostRuntime) -> Result<(), Fail> {
    answers(&rt, b"O\x02E", b"refused 26 0\nend 0 0 0 0\n")
}

#[test]
fn reads_65536_bytes(rt: HostRuntime) -> Result<(), Fail> {
    let most = vec![in rt.alloc(); b'E'; 65536]?;
    answers(&rt, most.as_slice(), b"end 0 0 0 0\n")?;
    let more = vec![in rt.alloc(); b'E'; 65537]?;
    answers(&rt, more.as_slice(), b"refused 25 0\n")
}

#[test]
fn needs_a_triangle(rt: HostRuntime) -> Result<(), Fail> {
    answers(&rt, b"O\0", b"refused 6 0\n")
}

#[test]
fn needs_each_side_met_once(rt: HostRuntime) -> Result<(), Fail> {
    answers(
        &rt,
        b"V\0\0\0\0\0\0V\x04\0\0\0\0\0V\0\0\x04\0\0\0T\0\0\x01\0\x02\0O\0",
        b"refused 8 28\n",
    )?;
    answers(
        &rt,
        b"V\0\0\0\0\0\0V\x04\0\0\0\0\0V\0\0\x04\0\0\0T\0\0\x01\0\x02\0T\0\0\x01\0\x02\0O\0",
        b"refused 7 35\n",
    )
}

#[test]
fn needs_one_ring_round_each_vertex(rt: HostRuntime) -> Result<(), Fail> {
    answers(
        &rt,
        b"V\0\0\0\0\0\0V\x04\0\0\0\0\0V\0\0\x04\0\0\0T\0\0\x01\0\x02\0T\0\0\x02\0\x01\0O\x01",
        b"refused 9 35\n",
    )?;
    answers(
        &rt,
        b"V\0\0\0\0\0\0V\x04\0\0\0\0\0V\0\0\x04\0\0\0V\0\0\0\0\x04\0V\x08\0\0\0\0\0V\x04\0\x04\0\0\0V\x04\0\0\0\x04\0T\0\0\x02\0\x01\0T\0\0\x01\0\x03\0T\0\0\x03\0\x02\0T\x01\0\x02\0\x03\0T\x01\0\x05\0\x04\0T\x01\0\x04\0\x06\0T\x01\0\x06\0\x05\0T\x04\0\x05\0\x06\0O\0",
        b"refused 9 105\n",
    )
}

#[test]
fn needs_normals_that_are_not_zero(rt: HostRuntime) -> Result<(), Fail> {
    answers(
        &rt,
        b"V\0\0\0\0\0\0V\x04\0\0\0\0\0V\x08\0\0\0\0\0V\0\0\0\0\x04\0T\0\0\x02\0\x01\0T\0\0\x01\0\x03\0T\0\0\x03\0\x02\0T\x01\0\x02\0\x03\0O\0",
        b"refused 10 56\n",
    )
}

#[test]
fn obeys_an_opened_surface(rt: HostRuntime) -> Result<(), Fail> {
    answers(
        &rt,
        b"V\0\0\0\0\0\0V\x04\0\0\0\0\0V\0\0\x04\0\0\0V\0\0\0\0\x04\0T\0\0\x02\0\x01\0T\0\0\x01\0\x03\0T\0\0\x03\0\x02\0T\x01\0\x02\0\x03\0O\0N\x01aV\x01\0\x01\0\x01\0T\0\0\x01\0\x02\0O\0WE",
        b"open 4 4 2 1\nrefused 23 58\nrefused 23 61\nrefused 23 68\nrefused 23 75\ntri 0 0 2 1\ntri 1 0 1 3\ntri 2 0 3 2\ntri 3 1 2 3\nend 4 4 2 1\n",
    )
}

#[test]
fn counts_two_pieces(rt: HostRuntime) -> Result<(), Fail> {
    answers(
        &rt,
        b"V\0\0\0\0\0\0V\x04\0\0\0\0\0V\0\0\x04\0\0\0V\0\0\0\0\x04\0V\x14\0\0\0\0\0V\x18\0\0\0\0\0V\x14\0\x04\0\0\0V\x14\0\0\0\x04\0T\0\0\x02\0\x01\0T\0\0\x01\0\x03\0T\0\0\x03\0\x02\0T\x01\0\x02\0\x03\0T\x04\0\x06\0\x05\0T\x04\0\x05\0\x07\0T\x04\0\x07\0\x06\0T\x05\0\x06\0\x07\0O\x01E",
        b"open 8 8 4 2\nend 8 8 4 2\n",
    )
}

#[test]
fn knows_calls_where_they_are_taken(rt: HostRuntime) -> Result<(), Fail> {
    for letter in [b"C", b"S", b"P", b"R", b"G"] {
        let without = run::<false>(rt.alloc(), letter)?;
        assert!(rt; without.as_slice() == b"refused 21 0\n".as_slice());
    }
    let lines = b"refused 23 0\nrefused 23 1\nrefused 23 2\nrefused 23 3\nrefused 22 6\n";
    let with_calls = run::<true>(rt.alloc(), b"SPRG\0\0C")?;
    assert!(rt; with_calls.as_slice() == lines.as_slice());
    Ok(())
}
