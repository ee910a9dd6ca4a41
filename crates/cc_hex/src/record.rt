// One record of an Intel HEX text, written after those before it.

ghost use Rattle.std.specs.Prelude.{◌≡◌, ◌++◌, ◌<◌, ◌≤◌, ◌/◌, ◌%◌, length, sum, OnOk};
ghost use Rattle.std.specs.List.{flat_map};
ghost use Rattle.cc_hex.specs.Layout.{digit, two_digits, record_line};
ghost use Rattle.cc_hex.specs.internal.Types.{type_number};

use std::alloc::AllocError;

/// The type of a record.
#[derive(Clone, Copy)]
pub enum RecordType {
    /// 00: bytes, from an offset on.
    Data,
    /// 01: nothing follows.
    EndOfFile,
    /// 04: the upper half of the addresses that follow.
    ExtendedLinearAddress,
}

impl RecordType {
    fn number(self) -> u8
        ensures { result ≡ type_number self }
    {
        match self {
            RecordType::Data => 0,
            RecordType::EndOfFile => 1,
            RecordType::ExtendedLinearAddress => 4,
        }
    }
}

/// Appends a record with at most 255 bytes of data to the text. An `Err` leaves a part of the record in the
/// text.
pub fn push_record(
    text: &mut Vec<u8>,
    record_type: RecordType,
    offset: u16,
    data_bytes: &[u8],
) -> Result<(), AllocError>
    requires { length data_bytes.now ≤ 255 }
    ensures { OnOk result (text.new.items ≡ text.old.items ++ record_line (type_number record_type) offset data_bytes.now) }
{
    let [high, low] = offset.to_be_bytes();
    let head = [data_bytes.len() as u8, high, low, record_type.number()];
    let total = sum_of(&head).wrapping_add(sum_of(data_bytes));
    text.extend_from_slice(b":")?;
    push_bytes(text, &head)?;
    push_bytes(text, data_bytes)?;
    push_bytes(text, &[total.wrapping_neg()])?;
    text.extend_from_slice(b"\n")
}

/// The lowest byte of the sum.
fn sum_of(bytes: &[u8]) -> u8
    ensures { result ≡ sum bytes.now % 256 }
{
    let mut total = 0u8;
    for byte in bytes {
        total = total.wrapping_add(*byte);
    }
    total
}

fn push_bytes(text: &mut Vec<u8>, bytes: &[u8]) -> Result<(), AllocError>
    ensures { OnOk result (text.new.items ≡ text.old.items ++ flat_map two_digits bytes.now) }
{
    for byte in bytes {
        text.extend_from_slice(&[digit_of(*byte / 16), digit_of(*byte % 16)])?;
    }
    Ok(())
}

fn digit_of(value: u8) -> u8
    requires { value < 16 }
    ensures { result ≡ digit value }
{
    if value < 10 {
        b'0' + value
    } else {
        b'A' + (value - 10)
    }
}
