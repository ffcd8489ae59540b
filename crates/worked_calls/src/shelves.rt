//! Shelves and sinks in memory: whole reads and writes, as far as the program shows nothing of them (`outside`).
use crate::lists::one;
use std::alloc::Global;
use std::test::Fail;
use syn_base::{Items, OutOfMemory};
use worked_parts::{
    File, Files, Gate, GateFree, ReadAnswer, Shelf, ShelfMem, ShelfSure, SinkSure, read_whole,
    write_whole,
};

/// The one file `a`.
fn one_file(alloc: Global) -> Result<Files, OutOfMemory> {
    let name = Items::new(Vec::from_slice(alloc, b"a")?);
    let bytes = Items::new(Vec::from_slice(alloc, b"words")?);
    Ok(Items::new(one(alloc, (name, bytes))?))
}

/// Whether a whole read gives these bytes.
fn gives<S: Shelf>(alloc: Global, shelf: &mut S, file: File, name: &str, wanted: &[u8]) -> bool {
    match read_whole(alloc, shelf, file, name) {
        Ok(bytes) => bytes.as_slice() == wanted,
        Err(_) => false,
    }
}

/// Whether a whole read fails, and these are the faults after it.
fn fails(alloc: Global, shelf: &mut ShelfMem, file: File, name: &str, faults: &[u64]) -> bool {
    match read_whole(alloc, shelf, file, name) {
        Err(ReadAnswer::Fault) => shelf.faults.as_slice() == faults,
        _ => false,
    }
}

/// The first call fails, and then a file that is not there; the third read is whole.
fn counts_its_faults(alloc: Global, shelf: &mut ShelfMem) -> bool {
    fails(alloc, shelf, File::Algorithm, "a", &[1, 0, 0, 0, 0])
        && fails(alloc, shelf, File::Sensors, "b", &[1, 0, 1, 0, 0])
        && gives(alloc, shelf, File::Algorithm, "a", b"words")
        && shelf.faults.as_slice() == [1, 0, 1, 0, 0].as_slice()
}

#[test]
fn counts_each_fault_at_its_file(rt: HostRuntime) -> Result<(), Fail> {
    let alloc = rt.alloc();
    let failing = Items::new(one(alloc, 0)?);
    let mut shelf = ShelfMem::new(one_file(alloc)?, failing);
    assert!(rt; counts_its_faults(alloc, &mut shelf));
    Ok(())
}

/// Whether what is there is read whole, and of what is not, nothing.
fn is_sure(alloc: Global, shelf: &mut ShelfSure) -> bool {
    gives(alloc, shelf, File::Code, "a", b"words") && gives(alloc, shelf, File::Code, "b", b"")
}

#[test]
fn nothing_fails_where_all_is_sure(rt: HostRuntime) -> Result<(), Fail> {
    let mut shelf = ShelfSure {
        files: one_file(rt.alloc())?,
    };
    assert!(rt; is_sure(rt.alloc(), &mut shelf));
    write_whole(&mut SinkSure, b"words")?;
    GateFree.pass(0, 0);
    Ok(())
}
