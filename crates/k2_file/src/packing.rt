//! Bits as bytes, the first bit highest.
ghost use Rattle.std.specs.Prelude.{◌≡◌, ◌<◌, ◌≤◌, ◌-◌, ◌*◌, ◌^◌, ◌++◌, OnOk, IfOk};
ghost use Rattle.run_model.specs.Files.{packed};
ghost use Rattle.k2_file.specs.Packing.{PacksBit};

use std::alloc::AllocError;

/// A byte under construction: how many bits it has so far, and their value. 2 bytes.
#[derive(Clone, Copy)]
struct Begun {
    value: u8,
    held: u8,
}

/// Appends bits as bytes. In the last byte, the bits after the last one are 0.
pub(crate) fn push_packed(out: &mut Vec<u8>, bits: &[bool]) -> Result<(), AllocError>
    ensures { OnOk result (out.new.items ≡ out.old.items ++ packed 0 0 bits.now) }
{
    let mut begun = Begun { value: 0, held: 0 };
    'bits: for bit in bits {
        begun = push_bit(out, begun, *bit)?;
    }
    if begun.held != 0 {
        out.push(filled(begun.value, begun.held))?;
    }
    Ok(())
}

/// Adds a bit to the byte under construction, and appends the byte if the bit is its eighth.
fn push_bit(out: &mut Vec<u8>, begun: Begun, bit: bool) -> Result<Begun, AllocError>
    requires held { begun.held < 8 }
    requires value { begun.value < 2 ^ begun.held }
    ensures held { IfOk result (λ b. b.held < 8) }
    ensures value { IfOk result (λ b. b.value < 2 ^ b.held) }
    ensures bytes { IfOk result (λ b. PacksBit out.old.items begun bit out.new.items b) }
{
    let value = 2 * begun.value + u8::from(bit);
    if begun.held != 7 {
        return Ok(Begun {
            value,
            held: begun.held + 1,
        });
    }
    out.push(value)?;
    Ok(Begun { value: 0, held: 0 })
}

/// A byte under construction, with the remaining bits 0.
fn filled(value: u8, held: u8) -> u8
    requires held { held < 8 }
    requires some { 1 ≤ held }
    requires value { value < 2 ^ held }
    ensures { result ≡ value * 2 ^ (8 - held) }
{
    value << (8 - held)
}
