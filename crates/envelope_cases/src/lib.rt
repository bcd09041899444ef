// Envelopes of every shape, with what their listing and their judgement should be.
#![tactic(auto)]

#[cfg(test)]
mod tests {
    use envelope::judge::judge;
    use envelope::kind::Set;
    use envelope::reader::Reader;
    use envelope::record::Record;
    use fault::Fault;
    use listing::{LONGEST, show};
    use std::alloc::{AllocError, Global};
    use std::iter;
    use std::process::Abort;
    use std::test::Fail;

    // A kind byte, and how many bytes of which value follow it. A number, since some are no kind.
    #[derive(Clone, Copy)]
    struct Raw {
        kind: u8,
        length: usize,
        fill: u8,
    }

    const DAY: Raw = Raw {
        kind: 5,
        length: 4,
        fill: 12,
    };

    const KEY: Raw = Raw {
        kind: 1,
        length: 32,
        fill: 170,
    };

    const OTHER_KEY: Raw = Raw { fill: 171, ..KEY };

    const SIGNATURE: Raw = Raw {
        kind: 2,
        length: 5904,
        fill: 187,
    };

    const KEY_R: Raw = Raw {
        kind: 3,
        length: 17,
        fill: 204,
    };

    const SIGNATURE_R: Raw = Raw {
        kind: 4,
        length: 648,
        fill: 221,
    };

    // A lone byte, which may or may not be a kind.
    const fn lone(kind: u8) -> Raw {
        Raw {
            kind,
            length: 0,
            fill: 0,
        }
    }

    const fn short(whole: Raw) -> Raw {
        Raw {
            length: whole.length.saturating_sub(1),
            ..whole
        }
    }

    fn written(heap: Global, records: &[Raw]) -> Result<Vec<u8>, AllocError> {
        let mut bytes = Vec::new(heap);
        for record in records {
            bytes.push(record.kind)?;
            bytes.extend(iter::repeat_n(record.fill, record.length))?;
        }
        Ok(bytes)
    }

    fn lists(rt: &(impl Abort + AllocGlobal), records: &[Raw], lines: &str) -> Result<(), Fail> {
        let heap = rt.alloc();
        let bytes = written(heap, records)?;
        let expected = format!(in heap; "place kind length\n{lines}\n")?;
        let text = show(heap, bytes.as_slice())?;
        assert_eq!(rt; text.as_str(), expected.as_str());
        Ok(())
    }

    #[test]
    fn whole_records_are_listed(rt: HostRuntime) -> Result<(), Fail> {
        lists(&rt, &[], "records 0")?;
        lists(&rt, &[DAY, KEY_R], "0 5 4\n5 3 17\nrecords 2")?;
        lists(
            &rt,
            &[KEY, SIGNATURE, KEY_R, SIGNATURE_R, DAY],
            "0 1 32\n33 2 5904\n5938 3 17\n5956 4 648\n6605 5 4\nrecords 5",
        )
    }

    #[test]
    fn an_unknown_kind_stops_the_listing(rt: HostRuntime) -> Result<(), Fail> {
        for kind in [0, 6, 255] {
            lists(&rt, &[lone(kind)], "refusal 12 layer E place 0")?;
            lists(&rt, &[lone(kind), DAY], "refusal 12 layer E place 0")?;
            lists(
                &rt,
                &[DAY, lone(kind), KEY_R],
                "0 5 4\nrefusal 12 layer E place 5",
            )?;
            lists(
                &rt,
                &[DAY, KEY_R, lone(kind)],
                "0 5 4\n5 3 17\nrefusal 12 layer E place 23",
            )?;
        }
        Ok(())
    }

    #[test]
    fn a_body_cut_short_stops_the_listing(rt: HostRuntime) -> Result<(), Fail> {
        for whole in [KEY, SIGNATURE, KEY_R, SIGNATURE_R, DAY] {
            lists(&rt, &[lone(whole.kind)], "refusal 13 layer E place 0")?;
            lists(&rt, &[short(whole)], "refusal 13 layer E place 0")?;
            lists(
                &rt,
                &[DAY, lone(whole.kind)],
                "0 5 4\nrefusal 13 layer E place 5",
            )?;
            lists(
                &rt,
                &[DAY, short(whole)],
                "0 5 4\nrefusal 13 layer E place 5",
            )?;
        }
        Ok(())
    }

    fn faults<T: Drop>(
        rt: &(impl Abort + AllocGlobal),
        answer: Result<T, Fault>,
        line: &str,
    ) -> Result<(), Fail> {
        let Err(fault) = answer else {
            return Err(Fail::new("no fault"));
        };
        assert_eq!(rt; format!(in rt.alloc(); "{fault}")?.as_str(), line);
        Ok(())
    }

    #[test]
    fn a_reader_stays_at_a_fault_and_at_the_end(rt: HostRuntime) -> Result<(), Fail> {
        let heap = rt.alloc();
        let bytes = written(heap, &[DAY, lone(0), KEY_R])?;
        let mut reader = Reader::new(bytes.as_slice());
        assert!(rt; matches!(reader.next(), Ok(Some(Record::Day(_)))));
        faults(&rt, reader.next(), "refusal 12 layer E place 5")?;
        faults(&rt, reader.next(), "refusal 12 layer E place 5")?;
        let bytes = written(heap, &[KEY_R])?;
        let mut reader = Reader::new(bytes.as_slice());
        assert!(rt; matches!(reader.next(), Ok(Some(Record::Key(Set::Rehearsal, _)))));
        assert!(rt; matches!(reader.next(), Ok(None)));
        assert!(rt; matches!(reader.next(), Ok(None)));
        Ok(())
    }

    // 72 records of 8,192 bytes in all.
    fn longest(heap: Global) -> Result<Vec<u8>, AllocError> {
        let mut bytes = written(heap, &[SIGNATURE, SIGNATURE_R, SIGNATURE_R, SIGNATURE_R])?;
        bytes.extend_from_slice(written(heap, &[DAY; 68])?.as_slice())?;
        Ok(bytes)
    }

    #[test]
    fn the_longest_envelope_is_listed(rt: HostRuntime) -> Result<(), Fail> {
        let heap = rt.alloc();
        let mut bytes = longest(heap)?;
        assert_eq!(rt; bytes.len(), LONGEST);
        let text = show(heap, bytes.as_slice())?;
        assert!(rt;
            text.as_str()
                .starts_with("place kind length\n0 2 5904\n5905 4 648\n")
        );
        assert!(rt;
            text.as_str()
                .ends_with("\n8182 5 4\n8187 5 4\nrecords 72\n")
        );
        bytes.push(5)?;
        assert_eq!(rt; bytes.len(), 8193);
        assert_eq!(rt; show(heap, bytes.as_slice())?.as_str(), "file too long\n");
        Ok(())
    }

    #[test]
    fn length_is_looked_at_before_kinds(rt: HostRuntime) -> Result<(), Fail> {
        let heap = rt.alloc();
        let garbage = Raw {
            kind: 0,
            length: 8191,
            fill: 7,
        };
        lists(&rt, &[garbage], "refusal 12 layer E place 0")?;
        let bytes = written(heap, &[garbage, lone(0)])?;
        assert_eq!(rt; show(heap, bytes.as_slice())?.as_str(), "file too long\n");
        Ok(())
    }

    // A key and a signature of one set.
    #[derive(Clone, Copy)]
    struct RawCouple {
        set: Set,
        key: Raw,
        signature: Raw,
    }

    const COUPLE: RawCouple = RawCouple {
        set: Set::S16,
        key: KEY,
        signature: SIGNATURE,
    };

    const COUPLE_R: RawCouple = RawCouple {
        set: Set::Rehearsal,
        key: KEY_R,
        signature: SIGNATURE_R,
    };

    // The place is that of the signature.
    fn accepts(
        rt: &(impl Abort + AllocGlobal),
        records: &[Raw],
        expected: RawCouple,
        place: usize,
    ) -> Result<(), Fail> {
        let heap = rt.alloc();
        let bytes = written(heap, records)?;
        let Ok(couple) = judge(bytes.as_slice()) else {
            return Err(Fail::new("refused"));
        };
        assert_eq!(rt; couple.set, expected.set);
        assert_eq!(rt; couple.signature.place, place);
        let RawCouple { key, signature, .. } = expected;
        let key = vec![in heap; key.fill; key.length]?;
        assert!(rt; couple.key.bytes == key.as_slice());
        let signature = vec![in heap; signature.fill; signature.length]?;
        assert!(rt; couple.signature.bytes == signature.as_slice());
        Ok(())
    }

    fn refuses(rt: &(impl Abort + AllocGlobal), records: &[Raw], line: &str) -> Result<(), Fail> {
        let bytes = written(rt.alloc(), records)?;
        faults(rt, judge(bytes.as_slice()), line)
    }

    #[test]
    fn a_couple_of_one_set_is_accepted_in_any_order(rt: HostRuntime) -> Result<(), Fail> {
        accepts(&rt, &[KEY, SIGNATURE], COUPLE, 33)?;
        accepts(&rt, &[SIGNATURE, KEY], COUPLE, 0)?;
        accepts(&rt, &[DAY, KEY, SIGNATURE], COUPLE, 38)?;
        accepts(&rt, &[KEY, DAY, SIGNATURE], COUPLE, 38)?;
        accepts(&rt, &[KEY, SIGNATURE, DAY], COUPLE, 33)?;
        accepts(&rt, &[KEY_R, SIGNATURE_R], COUPLE_R, 18)?;
        accepts(&rt, &[SIGNATURE_R, DAY, KEY_R], COUPLE_R, 0)
    }

    #[test]
    fn whole_records_that_make_no_couple_are_refused(rt: HostRuntime) -> Result<(), Fail> {
        let cases: &[(&[Raw], usize)] = &[
            (&[], 0),
            // no key, no signature, neither
            (&[SIGNATURE_R], 649),
            (&[KEY_R, DAY], 23),
            (&[DAY], 5),
            // several keys or signatures, equal ones too
            (&[KEY, OTHER_KEY, SIGNATURE], 5971),
            (&[KEY, KEY, SIGNATURE], 5971),
            (&[KEY_R, SIGNATURE_R, SIGNATURE_R], 1316),
            (&[KEY_R, KEY_R, KEY_R, SIGNATURE_R], 703),
            // another set
            (&[KEY, SIGNATURE_R], 682),
            (&[KEY_R, SIGNATURE], 5923),
            (&[KEY, SIGNATURE, KEY_R, SIGNATURE_R], 6605),
            (&[KEY, SIGNATURE, KEY_R], 5956),
            // several days
            (&[DAY, KEY_R, SIGNATURE_R, DAY], 677),
        ];
        for (records, place) in cases {
            let line = format!(in rt.alloc(); "refusal 14 layer E place {place}")?;
            refuses(&rt, records, line.as_str())?;
        }
        Ok(())
    }

    #[test]
    fn a_fault_of_the_reading_comes_before_a_missing_couple(rt: HostRuntime) -> Result<(), Fail> {
        refuses(&rt, &[KEY_R, KEY_R, lone(0)], "refusal 12 layer E place 36")?;
        refuses(
            &rt,
            &[KEY_R, SIGNATURE_R, lone(6)],
            "refusal 12 layer E place 667",
        )?;
        refuses(&rt, &[DAY, DAY, short(KEY)], "refusal 13 layer E place 10")?;
        refuses(
            &rt,
            &[KEY_R, SIGNATURE_R, lone(5)],
            "refusal 13 layer E place 667",
        )
    }
}
