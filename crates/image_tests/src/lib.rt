// Tests of images: each refusal with its place, and that the earlier one wins.
#![tactic(auto)]

#[cfg(test)]
mod tests {
    use bits::field::write_field;
    use image::check::{check_image, read_record};
    use refusal::{Layer, Note};
    use std::alloc::{AllocError, Global};
    use std::process::Abort;
    use std::test::Fail;

    // The fields of a header as they stand, in bounds or not, over zero bytes of that length.
    #[derive(Clone, Copy)]
    struct Raw {
        form: u64,
        mode: u64,
        tag: u64,
        version: u64,
        base: u64,
        count: u64,
        length: usize,
    }

    // One record with a tag of 8 bits.
    const ONE: Raw = Raw {
        form: 0,
        mode: 0,
        tag: 8,
        version: 1,
        base: 0,
        count: 1,
        length: 14,
    };

    const EXAMPLE: [u8; 21] = [
        0x10, 0x07, 0x00, 0x00, 0x10, 0x00, 0x00, 0x00, 0x80, 0x48, 0xD1, 0x59, 0xE2, 0x6A, 0xC0,
        0x00, 0x00, 0x00, 0x00, 0x00, 0x40,
    ];

    fn bytes_of(heap: Global, raw: Raw) -> Result<Vec<u8>, AllocError> {
        let mut bytes = vec![in heap; 0; raw.length]?;
        let out = bytes.as_mut_slice();
        write_field(out, 0, 2, raw.form);
        write_field(out, 2, 1, raw.mode);
        write_field(out, 3, 5, raw.tag);
        write_field(out, 8, 8, raw.version);
        write_field(out, 16, 30, raw.base);
        write_field(out, 46, 20, raw.count);
        Ok(bytes)
    }

    fn refused(
        rt: &impl Abort,
        heap: Global,
        raw: Raw,
        number: u32,
        place: u32,
    ) -> Result<(), Fail> {
        let bytes = bytes_of(heap, raw)?;
        refused_bytes(rt, bytes.as_slice(), number, place);
        Ok(())
    }

    fn refused_bytes(rt: &impl Abort, bytes: &[u8], number: u32, place: u32) {
        let note = check_image(bytes).map_err(|refusal| refusal.note());
        assert_eq!(rt; note, Err(Note::new(number, place, Layer::Image)));
    }

    fn accepted(rt: &impl Abort, heap: Global, raw: Raw) -> Result<(), Fail> {
        let bytes = bytes_of(heap, raw)?;
        let header = check_image(bytes.as_slice())?;
        assert_eq!(rt; u64::from(header.mode()), raw.mode);
        assert_eq!(rt; u64::from(header.tag_length()), raw.tag);
        assert_eq!(rt; u64::from(header.version()), raw.version);
        assert_eq!(rt; u64::from(header.base()), raw.base);
        assert_eq!(rt; u64::from(header.count()), raw.count);
        Ok(())
    }

    #[test]
    fn example(rt: HostRuntime) -> Result<(), Fail> {
        let header = check_image(&EXAMPLE)?;
        assert_eq!(rt; header.tag_length(), 16);
        assert_eq!(rt; header.version(), 7);
        assert_eq!(rt; header.base(), 0x400);
        assert_eq!(rt; read_record(&EXAMPLE, &header, 0), Some(0x0123_4567_89AB));
        assert_eq!(rt; read_record(&EXAMPLE, &header, 1), Some(1));
        assert_eq!(rt; read_record(&EXAMPLE, &header, 2), None);
        Ok(())
    }

    #[test]
    fn example_written(rt: HostRuntime) -> Result<(), Fail> {
        let raw = Raw {
            tag: 16,
            version: 7,
            base: 0x400,
            count: 2,
            length: 21,
            ..ONE
        };
        let mut bytes = bytes_of(rt.alloc(), raw)?;
        write_field(bytes.as_mut_slice(), 66, 48, 0x0123_4567_89AB);
        write_field(bytes.as_mut_slice(), 114, 48, 1);
        assert!(rt; bytes.as_slice() == EXAMPLE.as_slice());
        Ok(())
    }

    #[test]
    fn headers(rt: HostRuntime) -> Result<(), Fail> {
        let heap = rt.alloc();
        refused(
            &rt,
            heap,
            Raw {
                form: 3,
                mode: 1,
                tag: 31,
                count: 0,
                length: 9,
                ..ONE
            },
            3,
            0,
        )?;
        refused(
            &rt,
            heap,
            Raw {
                tag: 7,
                count: 0,
                ..ONE
            },
            3,
            3,
        )?;
        refused(&rt, heap, Raw { tag: 17, ..ONE }, 3, 3)?;
        refused(
            &rt,
            heap,
            Raw {
                mode: 1,
                tag: 9,
                ..ONE
            },
            3,
            3,
        )?;
        refused(
            &rt,
            heap,
            Raw {
                count: 0,
                base: 0x3FFF_FFFF,
                length: 9,
                ..ONE
            },
            3,
            46,
        )?;
        refused(
            &rt,
            heap,
            Raw {
                base: 0x3FFF_FFFF,
                count: 2,
                length: 9,
                ..ONE
            },
            3,
            16,
        )?;
        accepted(
            &rt,
            heap,
            Raw {
                base: 0x3FFF_FFFF,
                ..ONE
            },
        )?;
        accepted(
            &rt,
            heap,
            Raw {
                mode: 1,
                version: 0,
                ..ONE
            },
        )
    }

    #[test]
    fn lengths(rt: HostRuntime) -> Result<(), Fail> {
        let heap = rt.alloc();
        refused_bytes(&rt, &[], 2, 0);
        refused_bytes(&rt, &[0xFF; 8], 2, 8);
        refused(&rt, heap, Raw { length: 13, ..ONE }, 4, 14)?;
        refused(&rt, heap, Raw { length: 15, ..ONE }, 4, 14)?;
        for tag in 8..17u32 {
            let length = (66 + 32 + tag as usize + 7) / 8;
            accepted(
                &rt,
                heap,
                Raw {
                    tag: u64::from(tag),
                    length,
                    ..ONE
                },
            )?;
        }
        for bit in 106..112 {
            let mut bytes = bytes_of(heap, ONE)?;
            write_field(bytes.as_mut_slice(), bit, 1, 1);
            refused_bytes(&rt, bytes.as_slice(), 4, 14);
        }
        accepted(
            &rt,
            heap,
            Raw {
                tag: 16,
                version: 255,
                base: 0x3FF0_0001,
                count: 0xF_FFFF,
                length: 6_291_459,
                ..ONE
            },
        )
    }
}
