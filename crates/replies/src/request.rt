// Requests, read one after the other.

use finding::Finding;
use std::alloc::Global;
use std::io::{self, Read};

// The lists that are lent for a write.
#[derive(Drop)]
pub(crate) struct Lists {
    pub document: Vec<u8>,
    pub segments: Vec<u64>,
    pub findings: Vec<Finding>,
    pub stops: Vec<u64>,
}

#[derive(Drop)]
pub(crate) enum Request {
    Check(Vec<u8>),
    Plan(Vec<u8>),
    Nest(Vec<u8>, Vec<u32>),
    Write(Vec<u8>, Lists),
}

fn number<R: Read>(input: &mut R) -> io::Result<u32> {
    let mut bytes = [0u8; 4];
    input.read_exact(&mut bytes)?;
    Ok(u32::from_le_bytes(bytes))
}

fn word<R: Read>(input: &mut R) -> io::Result<u64> {
    let mut bytes = [0u8; 8];
    input.read_exact(&mut bytes)?;
    Ok(u64::from_le_bytes(bytes))
}

// A length, and so many bytes.
fn bytes<R: Read>(alloc: Global, input: &mut R) -> io::Result<Vec<u8>> {
    let length = number(input)? as usize;
    let mut bytes = vec![in alloc; 0u8; length]?;
    input.read_exact(&mut bytes)?;
    Ok(bytes)
}

// A length, and so many numbers of four bytes.
fn numbers<R: Read>(alloc: Global, input: &mut R) -> io::Result<Vec<u32>> {
    let length = number(input)?;
    let mut numbers = Vec::new(alloc);
    for _ in 0..length {
        numbers.push(number(input)?)?;
    }
    Ok(numbers)
}

// A length, and so many numbers of eight bytes.
fn words<R: Read>(alloc: Global, input: &mut R) -> io::Result<Vec<u64>> {
    let length = number(input)?;
    let mut words = Vec::new(alloc);
    for _ in 0..length {
        words.push(word(input)?)?;
    }
    Ok(words)
}

fn one_finding<R: Read>(input: &mut R) -> io::Result<Finding> {
    let kind = word(input)?;
    let mut values = [0u64; 9];
    for value in values.iter_mut() {
        *value = word(input)?;
    }
    Ok(Finding { kind, values })
}

// A length, and so many findings.
fn findings<R: Read>(alloc: Global, input: &mut R) -> io::Result<Vec<Finding>> {
    let length = number(input)?;
    let mut findings = Vec::new(alloc);
    for _ in 0..length {
        findings.push(one_finding(input)?)?;
    }
    Ok(findings)
}

fn lent<R: Read>(alloc: Global, input: &mut R) -> io::Result<Lists> {
    Ok(Lists {
        document: bytes(alloc, input)?,
        segments: words(alloc, input)?,
        findings: findings(alloc, input)?,
        stops: words(alloc, input)?,
    })
}

// The next request, or none at the end of the input.
pub(crate) fn next<R: Read>(alloc: Global, input: &mut R) -> io::Result<Option<Request>> {
    let mut what = [0u8; 1];
    if input.read(&mut what)? == 0 {
        return Ok(None);
    }
    let job = bytes(alloc, input)?;
    Ok(Some(match what[0] {
        0 => Request::Check(job),
        1 => Request::Plan(job),
        2 => Request::Nest(job, numbers(alloc, input)?),
        _ => Request::Write(job, lent(alloc, input)?),
    }))
}
