ghost use Rattle.std.specs.Prelude.{◌≡◌, ◌+◌, ◌^◌, length};
ghost use Rattle.thrift_compact.specs.Cursor.{end_of, Reads, Skips};
ghost use Rattle.thrift_compact.specs.Reading.{after_value, binary_in, count_in, field_header_in, list_header_in, signed_in};

use crate::fault::ThriftFault;
use crate::kept::Text;
use crate::reader::Reader;

/// The next field's id and type, or none at the struct's stop. `last` is the id of the field before it, and 0 at the
/// first.
pub fn next_field(reader: &mut Reader, last: i16) -> Result<Option<(i16, u8)>, ThriftFault>
    ensures { Reads reader.old reader.new result (field_header_in reader.old.at last reader.old.rest) }
{
    reader.read_header(last)
}

/// Passes over the value of a field that is not known.
pub fn pass_field(reader: &mut Reader, ty: u8) -> Result<(), ThriftFault>
    ensures { Skips reader.old reader.new result (after_value (end_of reader.old) 16 ty reader.old.rest) }
{
    reader.skip(ty)
}

/// A number of 32 bits.
pub fn read_int(reader: &mut Reader) -> Result<i32, ThriftFault>
    ensures { Reads reader.old reader.new result (signed_in reader.old.at (2 ^ 32) reader.old.rest) }
{
    reader.read_i32()
}

/// A number of 64 bits.
pub fn read_long(reader: &mut Reader) -> Result<i64, ThriftFault>
    ensures { Reads reader.old reader.new result (signed_in reader.old.at (2 ^ 64) reader.old.rest) }
{
    reader.read_i64()
}

/// A number of 32 bits that counts something: a negative one is too wide.
pub fn read_count(reader: &mut Reader) -> Result<u32, ThriftFault>
    ensures { Reads reader.old reader.new result (count_in reader.old.at (2 ^ 32) reader.old.rest) }
{
    reader.read_u32()
}

/// A number of 64 bits that counts something: a negative one is too wide.
pub fn read_long_count(reader: &mut Reader) -> Result<u64, ThriftFault>
    ensures { Reads reader.old reader.new result (count_in reader.old.at (2 ^ 64) reader.old.rest) }
{
    reader.read_u64()
}

/// A text or a byte string.
pub fn read_text<'a>(reader: &mut Reader<'a>) -> Result<Text<'a>, ThriftFault>
    ensures { Reads reader.old reader.new result (binary_in reader.old.at reader.old.rest) }
{
    Ok(Text::new(reader.read_binary()?))
}

/// The header of a list: the elements' type, and how many they are.
pub fn read_list(reader: &mut Reader) -> Result<(u8, u32), ThriftFault>
    ensures { Reads reader.old reader.new result (list_header_in reader.old.at reader.old.rest) }
{
    reader.read_list()
}
