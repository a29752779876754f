// The status that no run shows.
use dir_bytes::MemorySink;
use exit_status::{Status, report};
use std::test::Fail;

#[test]
fn want_of_memory_has_its_line(rt: HostRuntime) -> Result<(), Fail> {
    let room = Vec::with_capacity(rt.alloc(), 64)?;
    let mut errors = MemorySink::new(room, 7, Vec::new(rt.alloc()));
    report(&mut errors, Status::Memory);
    if Status::Memory.number() != 1 || errors.written.as_slice() != b"want of memory\n".as_slice() {
        return Err(Fail::new("another line"));
    }
    Ok(())
}
