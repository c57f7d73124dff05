// Tests of drafts: an image worked out by hand, word by word and all at once, and each refusal with its place.
#![tactic(auto)]

#[cfg(test)]
mod tests {
    use chilow::word_cipher::ChiLow;
    use cipher::{Mode, WordCipher};
    use cipher_tests::Bare;
    use refusal::{Layer, Note, Refusal};
    use shore::draft::{ClosedDraft, Draft, HandedBack};
    use shore::list::make_image;
    use std::process::Abort;
    use std::test::Fail;

    const WORDS: [u32; 2] = [0x0123_4567, 0x89AB_CDEF];

    // Bare words with a zero tag of 8 bits, version 7, byte address 0x1000, two words.
    // Form 00, mode 0 and tag length 01000 are the byte 08, the version is 07. The base 0x400 in 30 bits and the upper
    // 18 bits of the count, which are zero, are 00 00 10 00 00 00. Then come the last two bits of the count, 10, the
    // records 01 23 45 67 00 and 89 AB CD EF 00, and six pad bits: each byte has two bits of the one before in front.
    // 10|000000 01|001000 11|010001 01|011001 11|000000 00|100010 01|101010 11|110011 01|111011 11|000000 00|000000
    const IMAGE: [u8; 19] = [
        0x08, 0x07, 0x00, 0x00, 0x10, 0x00, 0x00, 0x00, 0x80, 0x48, 0xD1, 0x59, 0xC0, 0x22, 0x6A,
        0xF3, 0x7B, 0xC0, 0x00,
    ];

    // The same over bytes of ones, after the header, after one word and after two, when the pad bits are still ones.
    const HEADED: [u8; 19] = [
        0x08, 0x07, 0x00, 0x00, 0x10, 0x00, 0x00, 0x00, 0xBF, 0xFF, 0xFF, 0xFF, 0xFF, 0xFF, 0xFF,
        0xFF, 0xFF, 0xFF, 0xFF,
    ];

    const ONE_PUT: [u8; 19] = [
        0x08, 0x07, 0x00, 0x00, 0x10, 0x00, 0x00, 0x00, 0x80, 0x48, 0xD1, 0x59, 0xC0, 0x3F, 0xFF,
        0xFF, 0xFF, 0xFF, 0xFF,
    ];

    const BOTH_PUT: [u8; 19] = [
        0x08, 0x07, 0x00, 0x00, 0x10, 0x00, 0x00, 0x00, 0x80, 0x48, 0xD1, 0x59, 0xC0, 0x22, 0x6A,
        0xF3, 0x7B, 0xC0, 0x3F,
    ];

    fn draft_note(number: u32, place: u32) -> Note {
        Note::new(number, place, Layer::Draft)
    }

    fn untouched(rt: &impl Abort, buffer: &[u8]) {
        assert!(rt; buffer.iter().all(|byte| *byte == 0xFF));
    }

    fn opened(buffer: &mut [u8]) -> Result<Draft, Refusal> {
        Draft::open(&Bare::new(1), 7, 0x400, 2, buffer)
    }

    fn put(draft: Draft, word: u32, buffer: &mut [u8]) -> Result<Draft, HandedBack> {
        draft.put(&Bare::new(1), word, buffer)
    }

    // The draft, when a put is refused so.
    fn put_refused<C: WordCipher>(
        rt: &impl Abort,
        draft: Draft,
        cipher: &C,
        buffer: &mut [u8],
        expected: Note,
    ) -> Result<Draft, Fail> {
        let back = draft
            .put(cipher, 5, buffer)
            .err()
            .ok_or("a word is put that must be refused")?;
        assert_eq!(rt; back.refusal.note(), expected);
        Ok(back.draft)
    }

    fn close_refused(
        rt: &impl Abort,
        draft: Draft,
        buffer: &mut [u8],
        expected: Note,
    ) -> Result<Draft, Fail> {
        let back = draft
            .close(buffer)
            .err()
            .ok_or("a draft is closed that must be refused")?;
        assert_eq!(rt; back.refusal.note(), expected);
        Ok(back.draft)
    }

    // Opening with these is refused over 19 bytes, which stay as they are.
    fn open_refused(
        rt: &impl Abort,
        version: u32,
        base: u32,
        count: u32,
        expected: Note,
    ) -> Result<(), Fail> {
        let mut buffer = [0xFF; 19];
        let refusal = Draft::open(&Bare::new(1), version, base, count, &mut buffer)
            .err()
            .ok_or("a draft is opened that must be refused")?;
        assert_eq!(rt; refusal.note(), expected);
        untouched(rt, &buffer);
        Ok(())
    }

    fn open_accepted(rt: &impl Abort, version: u32, base: u32, count: u32) -> Result<(), Fail> {
        let draft = Draft::open(&Bare::new(1), version, base, count, &mut [0xFF; 19])?;
        assert_eq!(rt; draft.words_put(), 0);
        Ok(())
    }

    fn list_refused(
        rt: &impl Abort,
        words: &[u32],
        version: u32,
        buffer: &mut [u8],
        expected: Note,
    ) -> Result<(), Fail> {
        let refusal = make_image(&Bare::new(1), version, 0x400, words, buffer)
            .err()
            .ok_or("an image is made that must be refused")?;
        assert_eq!(rt; refusal.note(), expected);
        Ok(())
    }

    fn tells_both(rt: &impl Abort, made: ClosedDraft) {
        assert_eq!(rt; made.version(), 7);
        assert_eq!(rt; made.base(), 0x400);
        assert_eq!(rt; made.count(), 2);
        assert_eq!(rt; made.length(), 19);
    }

    #[test]
    fn word_by_word(rt: HostRuntime) -> Result<(), Fail> {
        let mut buffer = [0xFF; 19];
        let draft = opened(&mut buffer)?;
        assert!(rt; buffer.as_slice() == HEADED.as_slice());
        let draft = put(draft, WORDS[0], &mut buffer)?;
        assert!(rt; buffer.as_slice() == ONE_PUT.as_slice());
        assert_eq!(rt; draft.words_put(), 1);
        let draft = put(draft, WORDS[1], &mut buffer)?;
        assert!(rt; buffer.as_slice() == BOTH_PUT.as_slice());
        tells_both(&rt, draft.close(&mut buffer)?);
        assert!(rt; buffer.as_slice() == IMAGE.as_slice());
        Ok(())
    }

    #[test]
    fn all_at_once(rt: HostRuntime) -> Result<(), Fail> {
        let mut buffer = [0xFF; 24];
        let made = make_image(&Bare::new(1), 7, 0x400, &WORDS, &mut buffer[2..24])?;
        tells_both(&rt, made);
        untouched(&rt, &buffer[0..2]);
        assert!(rt; &buffer[2..21] == IMAGE.as_slice());
        untouched(&rt, &buffer[21..24]);
        Ok(())
    }

    #[test]
    fn bad_drafts(rt: HostRuntime) -> Result<(), Fail> {
        open_refused(&rt, 0, 0x400, 2, draft_note(15, 0))?;
        open_accepted(&rt, 1, 0x400, 2)?;
        open_accepted(&rt, 255, 0x400, 2)?;
        open_refused(&rt, 256, 0x400, 2, draft_note(15, 0))?;
        open_refused(&rt, 7, 0x400, 0, draft_note(15, 0))?;
        open_accepted(&rt, 7, 0x400, 1)?;
        // as many words as can be, for which 19 bytes are too few: (66 + 1048575 * 40 + 7) / 8 are needed
        open_refused(&rt, 7, 0x400, 1_048_575, draft_note(16, 5_242_884))?;
        open_refused(&rt, 7, 0x400, 1_048_576, draft_note(15, 0))?;
        open_accepted(&rt, 7, 0x3FFF_FFFF, 1)?;
        open_refused(&rt, 7, 0x4000_0000, 1, draft_note(15, 0))?;
        open_refused(&rt, 7, 0x3FFF_FFFF, 2, draft_note(15, 0))?;
        open_refused(
            &rt,
            0xFFFF_FFFF,
            0xFFFF_FFFF,
            0xFFFF_FFFF,
            draft_note(15, 0),
        )
    }

    #[test]
    fn short_buffers(rt: HostRuntime) -> Result<(), Fail> {
        open_refused(&rt, 7, 0x400, 3, draft_note(16, 24))?;
        let mut buffer = [0xFF; 19];
        let mut short = [0xFF; 18];
        let draft = opened(&mut buffer)?;
        let draft = put_refused(&rt, draft, &Bare::new(1), &mut short, draft_note(16, 19))?;
        assert_eq!(rt; draft.words_put(), 0);
        let draft = put(draft, WORDS[0], &mut buffer)?;
        let draft = put(draft, WORDS[1], &mut buffer)?;
        let draft = close_refused(&rt, draft, &mut short, draft_note(16, 19))?;
        untouched(&rt, &short);
        tells_both(&rt, draft.close(&mut buffer)?);
        assert!(rt; buffer.as_slice() == IMAGE.as_slice());
        Ok(())
    }

    #[test]
    fn full_and_short_drafts(rt: HostRuntime) -> Result<(), Fail> {
        let mut buffer = [0xFF; 19];
        let draft = opened(&mut buffer)?;
        let draft = close_refused(&rt, draft, &mut buffer, draft_note(18, 0))?;
        let draft = put(draft, WORDS[0], &mut buffer)?;
        let draft = close_refused(&rt, draft, &mut [], draft_note(18, 1))?;
        assert!(rt; buffer.as_slice() == ONE_PUT.as_slice());
        let draft = put(draft, WORDS[1], &mut buffer)?;
        let draft = put_refused(&rt, draft, &Bare::new(1), &mut buffer, draft_note(17, 2))?;
        assert_eq!(rt; draft.words_put(), 2);
        assert!(rt; buffer.as_slice() == BOTH_PUT.as_slice());
        Ok(())
    }

    // A cipher of another mode or tag length: the full draft goes first, the short buffer last.
    fn foreign(rt: &impl Abort, mode: Mode, tag_length: u32) -> Result<(), Fail> {
        let other = ChiLow::new(mode, tag_length)?;
        let mut buffer = [0xFF; 19];
        let draft = opened(&mut buffer)?;
        let draft = put_refused(rt, draft, &other, &mut [], Note::new(5, 2, Layer::Cipher))?;
        let draft = put(draft, WORDS[0], &mut buffer)?;
        let draft = put(draft, WORDS[1], &mut buffer)?;
        let draft = put_refused(rt, draft, &other, &mut buffer, draft_note(17, 2))?;
        tells_both(rt, draft.close(&mut buffer)?);
        Ok(())
    }

    #[test]
    fn foreign_ciphers(rt: HostRuntime) -> Result<(), Fail> {
        foreign(&rt, Mode::Block, 8)?;
        foreign(&rt, Mode::Tagged, 9)
    }

    #[test]
    fn lists(rt: HostRuntime) -> Result<(), Fail> {
        let words = vec![in rt.alloc(); 0; 1_048_576]?;
        let mut buffer = [0xFF; 18];
        list_refused(&rt, &[], 7, &mut buffer, draft_note(15, 0))?;
        list_refused(&rt, &WORDS, 0, &mut buffer, draft_note(15, 0))?;
        list_refused(&rt, &WORDS, 7, &mut buffer, draft_note(16, 19))?;
        list_refused(&rt, words.as_slice(), 7, &mut buffer, draft_note(15, 0))?;
        list_refused(
            &rt,
            &words.as_slice()[1..],
            7,
            &mut buffer,
            draft_note(16, 5_242_884),
        )?;
        untouched(&rt, &buffer);
        Ok(())
    }
}
