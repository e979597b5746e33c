ghost use Rattle.std.specs.Prelude.{◌≡◌, ◌≢◌, ℕ, ◌+◌, ◌*◌, ◌-◌, ◌/◌, ◌%◌, ◌^◌, ◌<◌, ◌≤◌, ◌&&◌, nat_lt, nat_le, None, length, slice_index, min, if◌then◌else◌, IsSome, IfOk, OnOk};
ghost use Rattle.std.specs.Bool.{OnTrue, OnFalse};
ghost use Rattle.std.specs.BTreeMap.{get};
ghost use Rattle.std.specs.Ordering.{nat_cmp};
ghost use Rattle.object_pages.specs.Bytes.{overlaid};
ghost use Rattle.object_pages.specs.Pages.{page_byte, byte_at, HasRoom, AreFull};

use flr_base::NoMemory;
use std::alloc::Global;
use std::collections::BTreeMap;

/// The pages of an object by number. Each has 4096 bytes.
pub type Pages = BTreeMap<u64, Vec<u8>>;

/// How many of the next `count` bytes, the first of them at `start` of its page, lie in that page.
fn share(start: usize, count: usize) -> usize
    requires { start < 4096 }
    ensures { result ≡ min (4096 - start) count }
{
    count.min(4096 - start)
}

/// Fills `buf` with the bytes from `offset` on.
pub fn read_bytes(pages: &Pages, offset: u64, buf: &mut [u8])
    requires full { AreFull pages.now }
    requires end { offset + length buf.old < 2 ^ 64 }
    ensures bytes { (k : ℕ) → k < length buf.old → slice_index buf.new k ≡ byte_at pages.now (offset + k) }
{
    let mut done = 0;
    while done < buf.len() {
        let at = offset + done as u64;
        let start = (at % 4096) as usize;
        let count = share(start, buf.len() - done);
        read_page(pages, at / 4096, start, &mut buf[done..done + count]);
        done += count;
    }
}

/// Fills `part` with the bytes of one page from `start` on.
fn read_page(pages: &Pages, number: u64, start: usize, part: &mut [u8])
    requires full { AreFull pages.now }
    requires within { start + length part.old ≤ 4096 }
    ensures bytes { (k : ℕ) → k < length part.old → slice_index part.new k ≡ page_byte (get nat_cmp pages.now number) (start + k) }
{
    match pages.get(&number) {
        Some(page) => part.copy_from_slice(&page[start..start + part.len()]),
        None => part.fill(0),
    }
}

/// Makes the pages that a write of `bytes` needs. No byte changes, also without memory.
pub fn make_pages(
    alloc: Global,
    pages: &mut Pages,
    offset: u64,
    bytes: &[u8],
) -> Result<(), NoMemory>
    requires full { AreFull pages.old }
    requires end { offset + length bytes.now < 2 ^ 64 }
    ensures full { AreFull pages.new }
    ensures same { (x : ℕ) → byte_at pages.new x ≡ byte_at pages.old x }
    ensures room { OnOk result (HasRoom pages.new offset bytes.now) }
{
    let mut done = 0;
    while done < bytes.len() {
        let at = offset + done as u64;
        let start = (at % 4096) as usize;
        let count = share(start, bytes.len() - done);
        make_page(alloc, pages, at / 4096, &bytes[done..done + count])?;
        done += count;
    }
    Ok(())
}

/// Makes a page of zeros where there is none and `part` isn't zeros alone.
fn make_page(alloc: Global, pages: &mut Pages, number: u64, part: &[u8]) -> Result<(), NoMemory>
    requires full { AreFull pages.old }
    ensures full { AreFull pages.new }
    ensures same { (q i : ℕ) → page_byte (get nat_cmp pages.new q) i ≡ page_byte (get nat_cmp pages.old q) i }
    ensures kept { (q : ℕ) → get nat_cmp pages.new q ≡ None → get nat_cmp pages.old q ≡ None }
    ensures room { OnOk result (get nat_cmp pages.new number ≡ None → (k : ℕ) → slice_index part.now k ≡ 0) }
{
    if pages.contains_key(&number) || part.iter().all(|byte| *byte == 0) {
        return Ok(());
    }
    let page = zero_page(alloc)?;
    let _none = pages.insert(number, page)?;
    Ok(())
}

/// A page of zeros.
fn zero_page(alloc: Global) -> Result<Vec<u8>, NoMemory>
    ensures full { IfOk result (λ page. length page.items ≡ 4096) }
    ensures zeros { IfOk result (λ page. (i : ℕ) → slice_index page.items i ≡ 0) }
{
    let page = vec![in alloc; 0u8; 4096]?;
    Ok(page)
}

/// Writes `bytes` from `offset` on, into the pages that are there.
pub fn write_bytes(pages: &mut Pages, offset: u64, bytes: &[u8])
    requires full { AreFull pages.old }
    requires end { offset + length bytes.now < 2 ^ 64 }
    requires room { HasRoom pages.old offset bytes.now }
    ensures full { AreFull pages.new }
    ensures bytes { (x : ℕ) → byte_at pages.new x ≡ overlaid (byte_at pages.old) offset bytes.now x }
{
    let mut done = 0;
    while done < bytes.len() {
        let at = offset + done as u64;
        let start = (at % 4096) as usize;
        let count = share(start, bytes.len() - done);
        write_page(pages, at / 4096, start, &bytes[done..done + count]);
        done += count;
    }
}

/// Writes `part` into one page from `start` on. A page that isn't there takes zeros alone.
fn write_page(pages: &mut Pages, number: u64, start: usize, part: &[u8])
    requires full { AreFull pages.old }
    requires within { start + length part.now ≤ 4096 }
    requires room { get nat_cmp pages.old number ≡ None → (k : ℕ) → slice_index part.now k ≡ 0 }
    ensures full { AreFull pages.new }
    ensures kept { (q : ℕ) → get nat_cmp pages.new q ≡ None → get nat_cmp pages.old q ≡ None }
    ensures others { (q : ℕ) → q ≢ number → get nat_cmp pages.new q ≡ get nat_cmp pages.old q }
    ensures bytes { (i : ℕ) → page_byte (get nat_cmp pages.new number) i ≡ overlaid (page_byte (get nat_cmp pages.old number)) start part.now i }
{
    match pages.get_mut(&number) {
        Some(page) => page[start..start + part.len()].copy_from_slice(part),
        None => {}
    }
}

/// Drops the pages from `first` on.
pub fn drop_pages(pages: &mut Pages, first: u64)
    requires full { AreFull pages.old }
    ensures full { AreFull pages.new }
    ensures front { (q : ℕ) → q < first → get nat_cmp pages.new q ≡ get nat_cmp pages.old q }
    ensures rest { (q : ℕ) → first ≤ q → get nat_cmp pages.new q ≡ None }
{
    while reaches(pages, first) {
        let _last = pages.pop_last();
    }
}

/// Whether there is a page from `first` on.
fn reaches(pages: &Pages, first: u64) -> bool
    ensures found { OnTrue result ((q : ℕ) × (first ≤ q) × IsSome (get nat_cmp pages.now q)) }
    ensures none { OnFalse result ((q : ℕ) → first ≤ q → get nat_cmp pages.now q ≡ None) }
{
    match pages.last_key_value() {
        Some((last, _)) => first <= *last,
        None => false,
    }
}

/// Makes the bytes of one page from `start` on zeros.
pub fn wipe_page(pages: &mut Pages, number: u64, start: usize)
    requires full { AreFull pages.old }
    requires within { start ≤ 4096 }
    ensures full { AreFull pages.new }
    ensures others { (q : ℕ) → q ≢ number → get nat_cmp pages.new q ≡ get nat_cmp pages.old q }
    ensures bytes { (i : ℕ) → page_byte (get nat_cmp pages.new number) i ≡ (if nat_lt i start then page_byte (get nat_cmp pages.old number) i else 0) }
{
    match pages.get_mut(&number) {
        Some(page) => page[start..].fill(0),
        None => {}
    }
}
