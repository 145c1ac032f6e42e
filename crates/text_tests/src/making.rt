//! Some places of the texts of generated problems.

use instance_make::{generate, print_instance};
use std::alloc::Global;
use std::test::Fail;

/// The text of a generated problem.
fn generated(alloc: Global, seed: u64) -> Result<Vec<u8>, Fail> {
    let p = generate(alloc, seed)?;
    Ok(print_instance(alloc, &p)?)
}

/// Whether this line stands in the text of a generated problem, which is 18,017 bytes long.
fn has(alloc: Global, seed: u64, place: &str) -> Result<bool, Fail> {
    let text = String::from_utf8(generated(alloc, seed)?)?;
    Ok(text.len() == 18_017 && text.contains(place))
}

/// What stands in the text of seed 1.
const PLACES: &str =
    r#"{"constraints":[{"kind":"offline","nodes":["n1"]},{"kind":"online","nodes":["n0","n2",
{"continuous":false,"kind":"ban","machines":["v40","v41","v42","v43","v44","v45","v46","v47","v48","v49"],"nodes":["n39"]}
{"amount":60,"continuous":true,"kind":"runningCapacity","nodes":["n10","n11","n12",
"migrate":{"base":2,"per":1,"resource":"mem"},"node_boot":{"base":4},"node_shutdown":{"base":2}
{"name":"v161","node":"n1","state":"running","use":{"cpu":3,"mem":7}}
{"capacity":{"cpu":32,"mem":64},"name":"n39","online":true}],"resources":["cpu","mem"]}"#;

#[test]
fn places_of_generated(rt: HostRuntime) -> Result<(), Fail> {
    let alloc = rt.alloc();
    for place in PLACES.lines() {
        assert!(rt; has(alloc, 1, place)?, "{place}");
    }
    assert!(rt; has(alloc, 39, r#"{"kind":"offline","nodes":["n39"]}"#)?);
    assert!(rt; has(alloc, u64::MAX, r#"{"kind":"offline","nodes":["n15"]}"#)?);
    Ok(())
}

/// Seeds with the same remainder by 40.
#[test]
fn the_same_of_two_seeds(rt: HostRuntime) -> Result<(), Fail> {
    let first = generated(rt.alloc(), 1)?;
    let again = generated(rt.alloc(), 41)?;
    assert_eq!(rt; first.as_slice(), again.as_slice());
    Ok(())
}
