//! Numbers filed under other numbers: how many stand under each key, and whether they are one.

ghost use Rattle.std.specs.Prelude.{◌≡◌, ◌<◌, ◌↔◌, IsTrue, ℕ, None, Some, false, length, slice_index, slice_set, true, if◌then◌else◌, All, IfOk};
ghost use Rattle.rail_net.specs.Entries.{AreCounts, AreMixed, AreValues};

use std::alloc::{AllocError, Global};

/// A value under a key.
#[derive(Clone, Copy, Debug)]
pub(crate) struct Entry {
    pub key: u32,
    pub value: u32,
}

/// How many entries stand under each of so many keys. Linear in keys and entries.
pub(crate) fn counts(
    alloc: Global,
    keys: usize,
    entries: &[Entry],
) -> Result<Vec<usize>, AllocError>
    requires { All (λ e. e.key < keys) entries.now }
    ensures len { IfOk result (λ counts. length counts.items ≡ keys) }
    ensures counts { IfOk result (λ counts. AreCounts entries.now counts.items) }
{
    let mut counts = vec![in alloc; 0; keys]?;
    count_in(counts.as_mut_slice(), entries);
    Ok(counts)
}

fn count_in(counts: &mut [usize], entries: &[Entry])
    requires keys { All (λ e. e.key < length counts.old) entries.now }
    requires none { (key : ℕ) → key < length counts.old → slice_index counts.old key ≡ 0 }
    ensures { AreCounts entries.now counts.new }
{
    for at in 0..entries.len() {
        counts[entries[at].key as usize] += 1;
    }
}

/// The value of one entry under each of so many keys, if there is one. Linear in keys and entries.
pub(crate) fn values(
    alloc: Global,
    keys: usize,
    entries: &[Entry],
) -> Result<Vec<Option<u32>>, AllocError>
    requires { All (λ e. e.key < keys) entries.now }
    ensures len { IfOk result (λ values. length values.items ≡ keys) }
    ensures values { IfOk result (λ values. AreValues entries.now values.items) }
{
    let mut values = vec![in alloc; None; keys]?;
    file_in(values.as_mut_slice(), entries);
    Ok(values)
}

fn file_in(values: &mut [Option<u32>], entries: &[Entry])
    requires keys { All (λ e. e.key < length values.old) entries.now }
    requires none { All (λ v. v ≡ None) values.old }
    ensures { AreValues entries.now values.new }
{
    for at in 0..entries.len() {
        let Entry { key, value } = entries[at];
        values[key as usize] = Some(value);
    }
}

/// Marks each of so many keys under which two values differ. Linear in keys and entries.
pub(crate) fn mixed(alloc: Global, keys: usize, entries: &[Entry]) -> Result<Vec<bool>, AllocError>
    requires { All (λ e. e.key < keys) entries.now }
    ensures len { IfOk result (λ marks. length marks.items ≡ keys) }
    ensures marks { IfOk result (λ marks. AreMixed entries.now marks.items) }
{
    let values = values(alloc, keys, entries)?;
    let mut marks = vec![in alloc; false; keys]?;
    mark_in(marks.as_mut_slice(), &values, entries);
    Ok(marks)
}

fn mark_in(marks: &mut [bool], values: &[Option<u32>], entries: &[Entry])
    requires keys { All (λ e. e.key < length marks.old) entries.now }
    requires len { length values.now ≡ length marks.old }
    requires values { AreValues entries.now values.now }
    requires none { All (λ m. m ≡ false) marks.old }
    ensures { AreMixed entries.now marks.new }
{
    for at in 0..entries.len() {
        let Entry { key, value } = entries[at];
        mark(marks, key as usize, is_kept(values[key as usize], value));
    }
}

fn is_kept(kept: Option<u32>, value: u32) -> bool
    ensures { IsTrue result ↔ (kept ≡ Some value) }
{
    kept == Some(value)
}

/// Sets the mark at the key, unless the value there is the one kept.
fn mark(marks: &mut [bool], key: usize, kept: bool)
    requires { key < length marks.old }
    ensures { marks.new ≡ (if kept then marks.old else slice_set marks.old key true) }
{
    if !kept {
        marks[key] = true;
    }
}
