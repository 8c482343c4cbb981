//! The addresses that lines name.
use kk_words::places;
use kk_worked::words_of;
use std::alloc::Global;
use std::test::*;

/// The addresses that the words of a line name: those at which the command listens, and after `to` its target.
fn named(alloc: Global, line: &str) -> Result<String, Fail> {
    let words = words_of(alloc, line)?;
    let addresses = match places(alloc, &words) {
        Ok(addresses) => addresses,
        Err(fault) => return Ok(format!(in alloc; "{fault:?}")?),
    };
    let mut text = String::new(alloc);
    for address in addresses.listen() {
        text.push_str(address.as_str())?;
        text.push_str(" ")?;
    }
    text.push_str("to ")?;
    text.push_str(addresses.target().unwrap_or("nobody"))?;
    Ok(text)
}

#[test]
fn places_of_lines(rt: HostRuntime) -> Result<(), Fail> {
    for (line, addresses) in [
        (
            "recv T 127.0.0.1:9000 127.0.0.1:9001",
            "127.0.0.1:9000 127.0.0.1:9001 to nobody",
        ),
        ("recv T A --idle 3 B", "A B to nobody"),
        ("recv T", "Words"),
        (
            "send T 127.0.0.1:9000 --seed 0000000000000000000000000000000000000000000000000000000000000000",
            "to 127.0.0.1:9000",
        ),
        ("send T 127.0.0.1:9000", "Words"),
        ("relay T A B --seed 00", "B to A"),
        ("unpack T", "to nobody"),
        ("frob T", "Words"),
    ] {
        let named = named(rt.alloc(), line)?;
        assert_eq!(rt; named.as_str(), addresses, "{line}");
    }
    Ok(())
}
