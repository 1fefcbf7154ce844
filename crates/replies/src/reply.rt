// What the library gives for a request, as bytes.

use crate::request::{Lists, Request};
use finding::Finding;
use std::alloc::{AllocError, Global};
use writer::Answer;

fn put_word(reply: &mut Vec<u8>, word: u64) -> Result<(), AllocError> {
    reply.extend_from_slice(&word.to_le_bytes())
}

fn put_words(reply: &mut Vec<u8>, words: &[u64]) -> Result<(), AllocError> {
    for word in words {
        put_word(reply, *word)?;
    }
    Ok(())
}

fn put_findings(reply: &mut Vec<u8>, findings: &[Finding]) -> Result<(), AllocError> {
    for finding in findings {
        put_word(reply, finding.kind)?;
        put_words(reply, &finding.values)?;
    }
    Ok(())
}

// The refusal's number, or 0 for a job that passes.
fn check_number(job: &[u8]) -> u32 {
    match refusal::check(job) {
        Ok(()) => 0,
        Err(refusal) => refusal.number(),
    }
}

// 0 for a complete plan, 16 for one that is not, or the refusal's number.
fn plan_number(job: &[u8]) -> u32 {
    match judge::judge(job) {
        Ok(true) => 0,
        Ok(false) => 16,
        Err(refusal) => refusal.number(),
    }
}

// The refusal's number, or 0; then the list.
fn hung(reply: &mut Vec<u8>, job: &[u8], mut nest: Vec<u32>) -> Result<(), AllocError> {
    let number = match hanging::hang(job, &mut nest) {
        Ok(()) => 0,
        Err(refusal) => refusal.number(),
    };
    reply.extend_from_slice(&number.to_le_bytes())?;
    for number in &nest {
        reply.extend_from_slice(&number.to_le_bytes())?;
    }
    Ok(())
}

fn number(answer: Answer) -> u32 {
    match answer {
        Ok(_) => 0,
        Err(refused) => refused.number(),
    }
}

// The four counts, 0 where the answer has none.
fn counts(answer: Answer) -> [u64; 4] {
    match writer::totals_of(answer) {
        Some(totals) => [
            totals.bytes as u64,
            totals.segments as u64,
            totals.findings as u64,
            totals.stops as u64,
        ],
        None => [0; 4],
    }
}

fn written(reply: &mut Vec<u8>, job: &[u8], mut lists: Lists) -> Result<(), AllocError> {
    let answer = baktuven::write(
        job,
        &mut lists.document,
        &mut lists.segments,
        &mut lists.findings,
        &mut lists.stops,
    );
    reply.extend_from_slice(&number(answer).to_le_bytes())?;
    put_words(reply, &counts(answer))?;
    reply.extend_from_slice(&lists.document)?;
    put_words(reply, &lists.segments)?;
    put_findings(reply, &lists.findings)?;
    put_words(reply, &lists.stops)
}

// The reply to a request.
pub(crate) fn of(alloc: Global, request: Request) -> Result<Vec<u8>, AllocError> {
    let mut reply = Vec::new(alloc);
    match request {
        Request::Check(job) => reply.extend_from_slice(&check_number(&job).to_le_bytes())?,
        Request::Plan(job) => reply.extend_from_slice(&plan_number(&job).to_le_bytes())?,
        Request::Nest(job, nest) => hung(&mut reply, &job, nest)?,
        Request::Write(job, lists) => written(&mut reply, &job, lists)?,
    }
    Ok(reply)
}
