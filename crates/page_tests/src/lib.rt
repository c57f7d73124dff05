// Tests of pages, with bare words, so that the images can be worked out by hand.
#![tactic(auto)]

#[cfg(test)]
mod tests {
    use cipher_tests::Bare;
    use page::check::check_page;
    use page::page::Page;
    use page::search::find_instruction;
    use refusal::{Layer, Note, Refusal};
    use shore::list::make_image;
    use std::process::Abort;

    const INSTRUCTIONS: [u32; 3] = [0x0123_4567, 0xDEAD_BEEF, 7];

    // The image of these three at version 1 and word 0x10, with tags of 8 bits.
    const IMAGE: [u8; 24] = [
        0x08, 0x01, 0x00, 0x00, 0x00, 0x40, 0x00, 0x00, 0xC0, 0x48, 0xD1, 0x59, 0xC0, 0x37, 0xAB,
        0x6F, 0xBB, 0xC0, 0x00, 0x00, 0x00, 0x01, 0xC0, 0x00,
    ];

    // The same with a tag of 1 in record 1, so that this record alone is foul.
    fn foul() -> [u8; 24] {
        let mut image = IMAGE;
        image[18] = 0x40;
        image
    }

    fn accepted(image: &[u8], first: u32, length: usize) -> Result<(), Refusal> {
        check_page(&Bare::new(0), image, first, length)
    }

    // The check refuses, and a page that is made all the same shows zeros.
    fn refused(rt: &impl Abort, image: &[u8], first: u32, length: usize, note: Note) {
        let cipher = Bare::new(0);
        let checked = check_page(&cipher, image, first, length);
        assert_eq!(rt; checked.map_err(|refusal| refusal.note()), Err(note));
        let mut words = [9; 8];
        if length <= 8 {
            let page = Page::new(&cipher, image, first, &mut words[0..length]);
            assert_eq!(rt; page.len(), length);
            for index in 0..9 {
                assert_eq!(rt; page.word(index), 0);
            }
        }
    }

    #[test]
    fn worked_by_hand(rt: HostRuntime) {
        let mut image = [0xFF; 24];
        assert!(rt; make_image(&Bare::new(0), 1, 0x10, &INSTRUCTIONS, &mut image).is_ok());
        assert!(rt; image == IMAGE);
    }

    #[test]
    fn shown_and_wiped(rt: HostRuntime) {
        let mut words = [9; 2];
        {
            let page = Page::new(&Bare::new(0), &IMAGE, 1, &mut words);
            assert_eq!(rt; page.len(), 2);
            assert_eq!(rt; page.word(0), 0xDEAD_BEEF);
            assert_eq!(rt; page.word(1), 7);
            assert_eq!(rt; page.word(2), 0);
            assert_eq!(rt; page.word(usize::MAX), 0);
        }
        assert!(rt; words == [0, 0]);
    }

    #[test]
    fn bounds(rt: HostRuntime) -> Result<(), Refusal> {
        accepted(&IMAGE, 0, 3)?;
        accepted(&IMAGE, 2, 1)?;
        accepted(&IMAGE, 3, 0)?;
        refused(&rt, &IMAGE, 0, 4, Note::new(19, 3, Layer::Image));
        refused(&rt, &IMAGE, 3, 1, Note::new(19, 3, Layer::Image));
        refused(&rt, &IMAGE, 4, 0, Note::new(19, 3, Layer::Image));
        refused(&rt, &IMAGE, 0xFFFF_FFFF, 1, Note::new(19, 3, Layer::Image));
        refused(&rt, &IMAGE, 0xFFFF_FFFF, 4, Note::new(19, 3, Layer::Image));
        refused(&rt, &IMAGE, 1, usize::MAX, Note::new(19, 3, Layer::Image));
        Ok(())
    }

    #[test]
    fn earlier_refusals(rt: HostRuntime) {
        refused(&rt, &[], 0, 1, Note::new(2, 0, Layer::Image));
        refused(&rt, &IMAGE[0..23], 0, 4, Note::new(4, 24, Layer::Image));
        let mut image = foul();
        image[0] = 0x07;
        refused(&rt, &image, 0, 3, Note::new(3, 3, Layer::Image));
        // tags of 9 bits, in an image of the same length: refused before the end and the records are looked at
        image[0] = 0x09;
        refused(&rt, &image, 0, 3, Note::new(5, 2, Layer::Cipher));
        refused(&rt, &image, 0, 4, Note::new(5, 2, Layer::Cipher));
    }

    #[test]
    fn foul_where_shown(rt: HostRuntime) -> Result<(), Refusal> {
        let image = foul();
        accepted(&image, 0, 1)?;
        accepted(&image, 2, 1)?;
        accepted(&image, 1, 0)?;
        refused(&rt, &image, 0, 2, Note::new(8, 1, Layer::Cipher));
        refused(&rt, &image, 1, 1, Note::new(8, 1, Layer::Cipher));
        refused(&rt, &image, 1, 3, Note::new(19, 3, Layer::Image));
        Ok(())
    }

    #[test]
    fn found_and_wiped(rt: HostRuntime) -> Result<(), Refusal> {
        let cipher = Bare::new(0);
        let mut buffer = [9; 2];
        assert_eq!(rt;
            find_instruction(&cipher, &IMAGE, 1, 0xDEAD_BEEF, &mut buffer)?,
            Some(0)
        );
        assert!(rt; buffer == [0, 0]);
        assert_eq!(rt; find_instruction(&cipher, &IMAGE, 1, 8, &mut buffer)?, None);
        buffer = [9, 8];
        let past = find_instruction(&cipher, &IMAGE, 2, 7, &mut buffer);
        assert_eq!(rt;
            past.map_err(|refusal| refusal.note()),
            Err(Note::new(19, 3, Layer::Image))
        );
        assert!(rt; buffer == [9, 8]);
        Ok(())
    }
}
