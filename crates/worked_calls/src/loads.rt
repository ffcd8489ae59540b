//! Loads: the texts of load 1, their lengths, and lines of them worked by hand (`load_texts`).
use load_texts::load_texts;
use std::test::Fail;

/// Whether these are the texts of load 1.
fn are_those_of_one(algorithm: &[u8], architecture: &[u8], table: &[u8]) -> bool {
    (algorithm.len(), architecture.len(), table.len()) == (994, 581, 2028)
        && algorithm.ends_with(
            b"edge f2_2.z r.x\nedge g.c w.c\nedge z.o r.z\nedge w.y a.i\nedge r.q b.i\nend\n",
        )
        && architecture.ends_with(b"duration Acc o2 1\nduration Acc o3 1\n")
        && table.starts_with(b"k,s.0,s.1,s.2,s.3\n0,-229,-62,165,-119\n1,-102,-315,-7,53\n")
}

#[test]
fn texts_of_load_one(rt: HostRuntime) -> Result<(), Fail> {
    let (algorithm, architecture, table) = load_texts(rt.alloc(), 1)?;
    assert!(rt; are_those_of_one(&algorithm, &architecture, &table));
    Ok(())
}
