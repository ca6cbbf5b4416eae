//! Texts of evidence, whole, cut and wrong.

use crate::{EvidenceFault, read_evidence, write_evidence};
use std::alloc::Global;
use std::test::Fail;
use text_names::Bytes;

const WORKED: [&[u8]; 19] = [
    b"alod evidence 1",
    b"diagnosis",
    b"omitted 0",
    b"nodes 3",
    b"top",
    b"bottom",
    b"class <http://l/A>",
    b"roles 0",
    b"removed 1",
    b"row 1 steps 2",
    b"sub 2 2 self",
    b"sub 2 1 incl 1 row 1 1",
    b"model 1",
    b"class 2 0",
    b"journal 3",
    b"0 front 0 0",
    b"0 no 0 0 marked",
    b"0 front done",
    b"end",
];

// Each step, and each line of a node, a role and a place.
const REFUSAL: [&[u8]; 32] = [
    b"alod evidence 1",
    b"refusal both",
    b"omitted 3",
    b"left 1 2 Import",
    b"left 2 1 HasKey",
    b"right 1 1 Import",
    b"nodes 5",
    b"top",
    b"bottom",
    b"class <>",
    b"and 0 1",
    b"some 4294967295 0",
    b"roles 3",
    b"property <p\xc3\xa9>",
    b"part left 1 2",
    b"part right 4294967295 3",
    b"steps 14",
    b"sub 1 1 self",
    b"sub 1 0 top",
    b"sub 1 2 incl 1 left 1",
    b"sub 1 2 left 1",
    b"sub 1 2 right 1",
    b"sub 1 2 both 1 2",
    b"link 1 0 2 out 18446744073709551615",
    b"sub 1 2 into 1 2",
    b"sub 1 1 void 1 2",
    b"link 1 0 2 role 1 right 4",
    b"link 1 0 2 chain 1 2 left 3",
    b"link 1 0 1 refl left 2",
    b"sub 1 2 dom 1 row 7 2",
    b"sub 1 1 disj 1 2 row 7 1",
    b"end",
];

// Each event with each of its replies.
const DIAGNOSIS: [&[u8]; 29] = [
    b"alod evidence 1",
    b"diagnosis",
    b"omitted 0",
    b"nodes 0",
    b"roles 0",
    b"removed 2",
    b"row 0 steps 0",
    b"row 4294967295 steps 0",
    b"model 4294967295",
    b"class 2",
    b"class 3 0 5 4294967295",
    b"role 0",
    b"role 1 0 1 0 2 1 0",
    b"journal 14",
    b"1 take 2 seen 3",
    b"1 take 2 over",
    b"1 front 2 3",
    b"1 front done",
    b"1 no 2 3 marked",
    b"1 no 2 3 late",
    b"1 yes 2 3 kept",
    b"1 yes 2 3 noted",
    b"1 yes 2 3 far",
    b"1 yes 2 3 late",
    b"1 yes 2 3 stale 4",
    b"1 block 2 5 3 kept",
    b"4294967295 front done",
    b"0 front done",
    b"end",
];

// These lines, each ended.
fn text_of(alloc: Global, lines: &[&[u8]]) -> Result<Bytes, Fail> {
    let mut text = Bytes::new(alloc);
    for line in lines {
        text.append(line)?;
        text.append(b"\n")?;
    }
    Ok(text)
}

// What is written of the evidence that a text is.
fn again(alloc: Global, text: &[u8]) -> Result<Bytes, Fail> {
    let evidence = read_evidence(alloc, text)?;
    Ok(write_evidence(alloc, &evidence)?)
}

fn fault(alloc: Global, text: &[u8]) -> Option<EvidenceFault> {
    read_evidence(alloc, text).err()
}

#[test]
fn cut_texts_have_their_fault(rt: HostRuntime) -> Result<(), Fail> {
    let alloc = rt.alloc();
    // The section that is not full after each line, or the last line.
    let sections = [1, 2, 3, 4, 4, 4, 7, 8, 9, 9, 9, 12, 13, 14, 15, 15, 15, 18];
    let mut text = Bytes::new(alloc);
    let mut number = 0u64;
    for (line, section) in WORKED.iter().zip(sections) {
        number = number.wrapping_add(1);
        let open = Some(EvidenceFault::Line { number });
        let (front, back) = line.split_at(line.len() / 2);
        text.append(front)?;
        assert_eq!(rt; fault(alloc, text.as_slice()), open, "in line {number}");
        text.append(back)?;
        assert_eq!(rt; fault(alloc, text.as_slice()), open, "open line {number}");
        text.append(b"\n")?;
        let cut = Some(EvidenceFault::Length { number: section });
        assert_eq!(rt; fault(alloc, text.as_slice()), cut, "after line {number}");
    }
    Ok(())
}

#[test]
fn ends_have_their_fault(rt: HostRuntime) -> Result<(), Fail> {
    let alloc = rt.alloc();
    let first = Some(EvidenceFault::Line { number: 1 });
    assert_eq!(rt; fault(alloc, b""), first, "no text");
    let mut text = text_of(alloc, &WORKED[..18])?;
    text.append(b"end")?;
    let open = Some(EvidenceFault::Line { number: 19 });
    assert_eq!(rt; fault(alloc, text.as_slice()), open, "open end");
    text.append(b"\n\n\n")?;
    let after = Some(EvidenceFault::Line { number: 20 });
    assert_eq!(rt; fault(alloc, text.as_slice()), after, "lines after the end");
    Ok(())
}

#[test]
fn changed_lines_have_their_fault(rt: HostRuntime) -> Result<(), Fail> {
    let rows: [(usize, &[u8], EvidenceFault); 5] = [
        (0, b"alod evidence 9", EvidenceFault::Version),
        (1, b"refusal", EvidenceFault::Line { number: 2 }),
        (3, b"nodes 4", EvidenceFault::Line { number: 8 }),
        (
            3,
            b"nodes 18446744073709551615",
            EvidenceFault::Line { number: 8 },
        ),
        (14, b"journal 4", EvidenceFault::Line { number: 19 }),
    ];
    for (place, line, wanted) in rows {
        let mut lines = WORKED;
        lines[place] = line;
        let text = text_of(rt.alloc(), &lines)?;
        assert_eq!(rt;
            fault(rt.alloc(), text.as_slice()),
            Some(wanted),
            "{line:?}"
        );
    }
    Ok(())
}

#[test]
fn each_form_is_read_and_written(rt: HostRuntime) -> Result<(), Fail> {
    let texts: [&[&[u8]]; 3] = [&WORKED, &REFUSAL, &DIAGNOSIS];
    for lines in texts {
        let text = text_of(rt.alloc(), lines)?;
        let written = again(rt.alloc(), text.as_slice())?;
        assert_eq!(rt; written.as_slice(), text.as_slice());
    }
    Ok(())
}

#[test]
fn first_lines_have_their_fault(rt: HostRuntime) {
    let line = Some(EvidenceFault::Line { number: 1 });
    let rows: [(&[u8], Option<EvidenceFault>); 10] = [
        (b"alod evidence 2", Some(EvidenceFault::Version)),
        (b"alod evidence 01\n", Some(EvidenceFault::Version)),
        (b"alod evidence 11\n\xff", Some(EvidenceFault::Version)),
        (b"alod evidence 1", line),
        (b"alod evidence 1\r\n", line),
        (b"alod evidence 1 \n", line),
        (b"alod evidence \n", line),
        (b"alod evidence 1a\n", line),
        (b"alod  evidence 2\n", line),
        (b"\n", line),
    ];
    for (text, wanted) in rows {
        assert_eq!(rt; fault(rt.alloc(), text), wanted, "{text:?}");
    }
}

#[test]
fn wrong_lines_have_their_number(rt: HostRuntime) -> Result<(), Fail> {
    // What follows the first two lines, and the line that is of no form, counted from there.
    let rows: [(&[u8], u64); 22] = [
        (b"omitted 00\n", 1),
        (b"omitted 18446744073709551616\n", 1),
        (b"nodes 0\n", 1),
        (b"omitted 2\nright 1 1 Import\nleft 1 1 Import\n", 3),
        (b"omitted 2\nleft 1 1 Import\nleft 1 1 HasKey\n", 3),
        (b"omitted 1\nleft 1 1 Class\n", 2),
        (b"omitted 0\nnodes 1\nclass http://l/A\n", 3),
        (b"omitted 0\nnodes 1\nclass <a<b>\n", 3),
        (b"omitted 0\nnodes 1\nclass <a b>\n", 3),
        (b"omitted 0\nnodes 1\nclass <\xff>\n", 3),
        (b"omitted 0\nnodes 1\nand 0 4294967296\n", 3),
        (b"omitted 0\nnodes 1\ntop\ntop\n", 4),
        (b"omitted 0\nnodes 0\nroles 1\npart both 1 1\n", 4),
        (
            b"omitted 0\nnodes 0\nroles 0\nremoved 2\nrow 1 steps 0\nrow 1 steps 0\n",
            6,
        ),
        (
            b"omitted 0\nnodes 0\nroles 0\nremoved 1\nrow 1 steps 1\nsub 1 1 incl 1 row 1 3\n",
            6,
        ),
        (
            b"omitted 0\nnodes 0\nroles 0\nremoved 1\nrow 1 steps 1\nsub 1 1 self 1\n",
            6,
        ),
        (
            b"omitted 0\nnodes 0\nroles 0\nremoved 0\nmodel 1\nclass 3\n",
            6,
        ),
        (
            b"omitted 0\nnodes 0\nroles 0\nremoved 0\nmodel 1\nclass 2 1 1\n",
            6,
        ),
        (
            b"omitted 0\nnodes 0\nroles 0\nremoved 0\nmodel 1\nrole 0\nclass 2\n",
            7,
        ),
        (
            b"omitted 0\nnodes 0\nroles 0\nremoved 0\nmodel 1\nrole 0 1 2 1\n",
            6,
        ),
        (
            b"omitted 0\nnodes 0\nroles 0\nremoved 0\nmodel 1\njournal 1\n0 no 0 0 kept\n",
            7,
        ),
        (
            b"omitted 0\nnodes 0\nroles 0\nremoved 0\nmodel 1\njournal 0\nend \n",
            7,
        ),
    ];
    for (rest, line) in rows {
        let mut text = Bytes::copy_of(rt.alloc(), b"alod evidence 1\ndiagnosis\n")?;
        text.append(rest)?;
        let number = line.wrapping_add(2);
        let wanted = Some(EvidenceFault::Line { number });
        assert_eq!(rt; fault(rt.alloc(), text.as_slice()), wanted, "{rest:?}");
    }
    Ok(())
}

#[test]
fn great_counts_take_no_memory(rt: HostRuntime) {
    let text =
        b"alod evidence 1\ndiagnosis\nomitted 0\nnodes 0\nroles 0\nremoved 18446744073709551615\n";
    let wanted = Some(EvidenceFault::Length { number: 6 });
    assert_eq!(rt; fault(rt.alloc(), text), wanted);
    let text =
        b"alod evidence 1\ndiagnosis\nomitted 0\nnodes 0\nroles 0\nremoved 0\nmodel 4294967295\n";
    let wanted = Some(EvidenceFault::Length { number: 7 });
    assert_eq!(rt; fault(rt.alloc(), text), wanted);
}
