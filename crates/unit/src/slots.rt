// Writing the records of an image into slots.
ghost use Rattle.std.specs.Prelude.{◌≡◌, ◌<◌, ◌≤◌, ◌++◌, length, drop};
ghost use Rattle.memory.specs.Slots.{after_write};
ghost use Rattle.image.specs.Reading.{head_of, record_in, records_in};

use image::check::read_record;
use image::header::Header;
use memory::Memory;

// Puts record `index` of an image into slot `index`.
fn write_record<M: Memory>(memory: &mut M, image: &[u8], header: &Header, index: u32)
    requires { index < header.now.count }
    ensures inside { index < header.now.count }
    ensures after { M.held memory.new ≡ after_write (M.held memory.old) index (record_in image.now (head_of header.now) index) }
    ensures kept { M.rest memory.new ≡ M.rest memory.old }
{
    if let Some(number) = read_record(image, header, index) {
        let _ = memory.write(index, number);
    }
}

// Puts each record of an image into its slot.
pub(crate) fn write_records<M: Memory>(memory: &mut M, image: &[u8], header: &Header)
    requires { header.now.count ≤ length (M.held memory.old) }
    ensures after { M.held memory.new ≡ records_in image.now (head_of header.now) ++ drop header.now.count (M.held memory.old) }
    ensures kept { M.rest memory.new ≡ M.rest memory.old }
{
    // Stays: a record's number is also its slot's; there is no slice of records to go over.
    for index in 0..header.count() {
        write_record(memory, image, header, index);
    }
}
