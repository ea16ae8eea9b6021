ghost use Rattle.std.specs.Prelude.{◌≤◌};

use crate::Stopped;
use sig_outside::Disk;
use sig_system::FileDisk;
use std::alloc::Global;
use std::fs::{File, Files};

/// Writes as many bytes as a record has behind its gate, syncs, writes one byte before them, and syncs: so often.
pub fn write_bare<R: Files<File = File>>(
    alloc: Global,
    rt: &R,
    path: &str,
    count: u64,
    size: u64,
) -> Result<u64, Stopped>
    requires count { count ≤ 1000000 }
    requires size { size ≤ 1000000 }
{
    let Ok(mut file) = FileDisk::open(rt, path) else {
        return Err(Stopped::Open);
    };
    let Ok(bytes) = vec![in alloc; 0x61u8; size as usize + 5] else {
        return Err(Stopped::Memory);
    };
    for number in 0..count {
        let at = 36 + number * (size + 5);
        let done = file.write_at(at, bytes.as_slice()).is_ok()
            && file.sync().is_ok()
            && file.write_at(at - 1, &[0x5a]).is_ok()
            && file.sync().is_ok();
        if !done {
            return Err(Stopped::Store);
        }
    }
    Ok(count)
}
