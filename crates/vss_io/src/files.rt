//! Files in memory: looked for by name, and copied.

ghost use Rattle.std.specs.Prelude.{◌≡◌, ◌≤◌, ◌<◌, ◌↔◌, length, IfOk, IsErrOf, find, string_bytes, vec_len};
ghost use Rattle.std.specs.Option.{option_copied};
ghost use Rattle.std.specs.Str.{bytes_eq};
ghost use Rattle.vss_io.specs.MemFiles.{named_bytes, file_named};

use crate::reading::ShelfFault;
use std::alloc::Global;

/// The bytes of the first file of that name. Linear in the files.
pub fn bytes_of<'a>(files: &'a [(String, Vec<u8>)], name: &str) -> Option<&'a [u8]>
    ensures { option_copied result ≡ file_named (named_bytes files.now) name.now }
{
    find_file(files, name).map(|file| file.1.as_slice())
}

fn find_file<'a>(files: &'a [(String, Vec<u8>)], name: &str) -> Option<&'a (String, Vec<u8>)>
    ensures { option_copied result ≡ find (λ file. bytes_eq (string_bytes file.0) name.now) files.now }
{
    files.iter().find(|file| file.0.as_str() == name)
}

/// A copy of the bytes, if they are at most `max`.
pub fn copy_within(alloc: Global, bytes: &[u8], max: u64) -> Result<Vec<u8>, ShelfFault>
    ensures copy { IfOk result (λ copy. copy.items ≡ bytes.now) }
    ensures within { IfOk result (λ copy. vec_len copy ≤ max) }
    ensures too_long { IsErrOf result ShelfFault.TooLong ↔ (max < length bytes.now) }
    ensures never_failed { ¬ IsErrOf result ShelfFault.Failed }
{
    if bytes.len() as u64 > max {
        return Err(ShelfFault::TooLong);
    }
    Vec::from_slice(alloc, bytes).map_err(|_| ShelfFault::Memory)
}
