//! The objects in memory, and the loops over a source and a sink.
use kk_outside::{
    Bytes, Event, Failed, GATE_BYTES, Gate, Got, MemoryGate, MemoryOutlet, MemorySink,
    MemorySource, Outlet, Sink, Source, fill, write_all,
};
use std::test::Fail;

#[test]
fn gives_pieces_and_fails_at_the_second_call(rt: HostRuntime) -> Result<(), Fail> {
    let alloc = rt.alloc();
    let bytes = [1u8, 2, 3, 4, 5].to_vec(alloc)?;
    let mut source = MemorySource::new(bytes, 3, [1u64].to_vec(alloc)?);
    let mut buf = [0; 4];
    assert_eq!(rt; source.read(&mut buf), Ok(3));
    assert_eq!(rt; buf.as_slice(), [1, 2, 3, 0].as_slice());
    assert_eq!(rt; source.read(&mut buf), Err(Failed));
    assert_eq!(rt; source.faults(), 1);
    assert_eq!(rt; source.read(&mut buf), Ok(2));
    assert_eq!(rt; buf.as_slice(), [4, 5, 3, 0].as_slice());
    assert_eq!(rt; source.read(&mut buf), Ok(0));
    Ok(())
}

#[test]
fn fails_at_the_first_call_and_when_it_is_full(rt: HostRuntime) -> Result<(), Fail> {
    let alloc = rt.alloc();
    let mut sink = MemorySink::new(alloc, 4, 3, [0u64].to_vec(alloc)?)?;
    assert_eq!(rt; sink.write(&[1, 2, 3, 4, 5]), Err(Failed));
    assert_eq!(rt; sink.write(&[1, 2, 3, 4, 5]), Ok(3));
    assert_eq!(rt; sink.write(&[4, 5]), Ok(1));
    assert_eq!(rt; sink.write(&[5]), Err(Failed));
    assert_eq!(rt; sink.write(&[]), Ok(0));
    assert_eq!(rt; sink.bytes(), [1, 2, 3, 4].as_slice());
    assert_eq!(rt; sink.faults(), 2);
    Ok(())
}

#[test]
fn tells_its_events_in_order(rt: HostRuntime) -> Result<(), Fail> {
    let alloc = rt.alloc();
    let mut events = Vec::new(alloc);
    events.push(Event::Datagram(Bytes::new([7u8, 8].to_vec(alloc)?)))?;
    events.push(Event::Fault)?;
    events.push(Event::Quiet)?;
    let mut gate = MemoryGate::new(events);
    let mut buf = [0; GATE_BYTES];
    assert_eq!(rt; gate.next(&mut buf), Ok(Got::Datagram(2)));
    assert_eq!(rt; &buf[..3], [7, 8, 0].as_slice());
    assert_eq!(rt; gate.next(&mut buf), Err(Failed));
    assert_eq!(rt; gate.faults(), 1);
    assert_eq!(rt; gate.next(&mut buf), Ok(Got::Quiet));
    assert_eq!(rt; gate.next(&mut buf), Ok(Got::Over));
    assert_eq!(rt; gate.next(&mut buf), Ok(Got::Over));
    Ok(())
}

#[test]
fn fails_at_the_first_call_and_where_a_datagram_is_too_long(rt: HostRuntime) -> Result<(), Fail> {
    let alloc = rt.alloc();
    let mut outlet = MemoryOutlet::new(alloc, 5, [0u64].to_vec(alloc)?)?;
    assert_eq!(rt; outlet.send(&[1, 2, 3]), Err(Failed));
    assert_eq!(rt; outlet.send(&[1, 2, 3]), Ok(()));
    assert_eq!(rt; outlet.send(&[4, 5, 6]), Err(Failed));
    assert_eq!(rt; outlet.send(&[4, 5]), Ok(()));
    assert_eq!(rt; outlet.faults(), 2);
    assert_eq!(rt; outlet.sent(), 2);
    assert_eq!(rt; outlet.datagram(0), [1, 2, 3].as_slice());
    assert_eq!(rt; outlet.datagram(1), [4, 5].as_slice());
    Ok(())
}

#[test]
fn writes_all_and_stops_at_a_fault(rt: HostRuntime) -> Result<(), Fail> {
    let alloc = rt.alloc();
    let mut sink = MemorySink::new(alloc, 8, 2, [4u64].to_vec(alloc)?)?;
    assert_eq!(rt; write_all(&mut sink, &[1, 2, 3, 4, 5]), Ok(()));
    assert_eq!(rt; sink.bytes(), [1, 2, 3, 4, 5].as_slice());
    assert_eq!(rt; write_all(&mut sink, &[6, 7, 8]), Err(Failed));
    assert_eq!(rt; sink.bytes(), [1, 2, 3, 4, 5, 6, 7].as_slice());
    Ok(())
}

#[test]
fn fills_from_short_reads(rt: HostRuntime) -> Result<(), Fail> {
    let alloc = rt.alloc();
    let bytes = [1u8, 2, 3, 4, 5, 6, 7].to_vec(alloc)?;
    let mut source = MemorySource::new(bytes, 2, [3u64].to_vec(alloc)?);
    let mut buf = [0; 5];
    assert_eq!(rt; fill(&mut source, &mut buf), Ok(5));
    assert_eq!(rt; buf.as_slice(), [1, 2, 3, 4, 5].as_slice());
    assert_eq!(rt; fill(&mut source, &mut buf), Err(Failed));
    assert_eq!(rt; fill(&mut source, &mut buf), Ok(2));
    assert_eq!(rt; &buf[..2], [6, 7].as_slice());
    Ok(())
}
