// Writing the parts of an image.
ghost use Rattle.std.specs.Prelude.{◌+◌, ◌-◌, ◌*◌, ◌<◌};
ghost use Rattle.bits.specs.Field.{Written};
ghost use Rattle.image.specs.Layout.{head_fields, head_bits, record_bits, joined, end_of, image_length};
ghost use Rattle.image.specs.Reading.{head_of};

use bits::field::write_field;
use image::header::Header;

/// Writes the 66 bits of a header.
pub(crate) fn write_header(header: &Header, buffer: &mut [u8])
    ensures { Written buffer.old buffer.new 0 head_bits (joined (head_fields (head_of header.now)) 0) }
{
    write_field(buffer, 0, 2, 0);
    write_field(buffer, 2, 1, u64::from(header.mode()));
    write_field(buffer, 3, 5, header.tag_length() as u64);
    write_field(buffer, 8, 8, header.version() as u64);
    write_field(buffer, 16, 30, header.base() as u64);
    write_field(buffer, 46, 20, header.count() as u64);
}

/// Writes the bits of a record.
pub(crate) fn write_record(header: &Header, index: u32, stored: u64, buffer: &mut [u8])
    requires { index < header.now.count }
    ensures { Written buffer.old buffer.new (head_bits + index * record_bits (head_of header.now)) (record_bits (head_of header.now)) stored }
{
    let width = header.record_bits();
    write_field(buffer, 66 + index as usize * width as usize, width, stored);
}

/// Writes the pad bits, which are zero.
pub(crate) fn write_pad(header: &Header, buffer: &mut [u8])
    ensures { Written buffer.old buffer.new (end_of (head_of header.now)) (8 * image_length (head_of header.now) - end_of (head_of header.now)) 0 }
{
    let end = header.end();
    write_field(buffer, end as usize, 8 * header.image_length() - end, 0);
}
