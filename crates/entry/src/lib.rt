// The functions that programs in other languages call, with no condition in their contracts: `rt lib` here writes out/libentry.a.
// bindings/c/sheet.h and bindings/rust/src/ffi.rs declare them, and bindings/declared.py compares these declarations with this file.
#![tactic(auto)]

ghost use Rattle.std.specs.Prelude.{◌≡◌, ℕ, ◌<◌, get_or};
ghost use Rattle.sheet.specs.Entry.{document_limits, finished, entry_result};

use sheet::run_sheet;

// The run of a sheet: returns the reason, and in `orders` and `bytes` how many orders were answered and how many bytes written. The last line says
// that a sheet is a list of bytes, as the theorems about a call want it (crates/sheet/proofs/Main.antt).
#[unsafe(no_mangle)]
pub extern "C" fn sheet_run(
    sheet: &[u8],
    out: &mut [u8],
    a: &mut [u32],
    b: &mut [u32],
    c: &mut [u32],
    d: &mut [u32],
    orders: &mut u64,
    bytes: &mut u64,
) -> u32
    ensures run { finished result orders.new bytes.new out.new a.new b.new c.new d.new
        ≡ entry_result document_limits 16384 sheet.now out.old a.old b.old c.old d.old }
    ensures octets { (i : ℕ) → get_or sheet.now i 0 < 256 }
{
    let r = run_sheet(sheet, out, a, b, c, d);
    *orders = r.orders;
    *bytes = r.bytes as u64;
    u32::from(r.reason)
}
