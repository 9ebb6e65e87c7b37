// The plan lines of a tape.
ghost use Rattle.std.specs.Prelude.{◌≡◌, codes, option_and_then, IfOk};
ghost use Rattle.std.specs.Option.{option_map};
ghost use Rattle.mail_model.specs.Tape.{strip, nodes_line, copies_line, buckets_line, user_line, postmaster_line, go_line, plan_line_of, tape_plan_line};
ghost use Rattle.tape_lines.specs.PlanLines.{plan_line_seen, counts_line, names_line};

use crate::CopyCount;
use crate::words::{strip, tape_line};
use line_words::{behind_word, first_word, has_space, number};
use mail_base::{Name, Secret};
use std::alloc::{AllocError, Global};

/// A plan line.
#[derive(Drop)]
pub enum PlanLine {
    /// How many nodes there are, from 1 to 16.
    Nodes(u8),
    /// How many copies are made and confirm.
    Copies(CopyCount),
    /// How many buckets there are, from 1 to 1,024.
    Buckets(u32),
    User { name: Name, secret: Secret },
    Postmaster(Name),
    /// The plan ends.
    Go,
}

fn nodes(rest: &[u8]) -> Option<PlanLine>
    ensures { option_map plan_line_seen result ≡ nodes_line rest.now }
{
    let count = number(rest)?;
    if count < 1 || count > 16 {
        return None;
    }
    Some(PlanLine::Nodes(count as u8))
}

fn copies(rest: &[u8]) -> Option<PlanLine>
    ensures { option_map plan_line_seen result ≡ copies_line rest.now }
{
    if !has_space(rest) {
        return None;
    }
    let copies = number(first_word(rest))?;
    let confirm = number(behind_word(rest))?;
    Some(PlanLine::Copies(CopyCount::new(copies, confirm)?))
}

fn buckets(rest: &[u8]) -> Option<PlanLine>
    ensures { option_map plan_line_seen result ≡ buckets_line rest.now }
{
    let count = number(rest)?;
    if count < 1 || count > 1024 {
        return None;
    }
    Some(PlanLine::Buckets(count as u32))
}

fn user(alloc: Global, rest: &[u8]) -> Result<Option<PlanLine>, AllocError>
    ensures { IfOk result (λ line. option_map plan_line_seen line ≡ user_line rest.now) }
{
    if !has_space(rest) {
        return Ok(None);
    }
    let Some(name) = Name::spelt(alloc, first_word(rest))? else {
        return Ok(None);
    };
    let Some(secret) = Secret::read(alloc, behind_word(rest))? else {
        return Ok(None);
    };
    Ok(Some(PlanLine::User { name, secret }))
}

fn postmaster(alloc: Global, rest: &[u8]) -> Result<Option<PlanLine>, AllocError>
    ensures { IfOk result (λ line. option_map plan_line_seen line ≡ postmaster_line rest.now) }
{
    match Name::spelt(alloc, rest)? {
        Some(name) => Ok(Some(PlanLine::Postmaster(name))),
        None => Ok(None),
    }
}

fn go(rest: &[u8]) -> Option<PlanLine>
    ensures { option_map plan_line_seen result ≡ go_line rest.now }
{
    if !rest.is_empty() {
        return None;
    }
    Some(PlanLine::Go)
}

fn nodes_of(line: &[u8]) -> Option<PlanLine>
    ensures { option_map plan_line_seen result ≡ option_and_then nodes_line (strip (codes "nodes ") line.now) }
{
    nodes(strip(b"nodes ", line)?)
}

fn copies_of(line: &[u8]) -> Option<PlanLine>
    ensures { option_map plan_line_seen result ≡ option_and_then copies_line (strip (codes "copies ") line.now) }
{
    copies(strip(b"copies ", line)?)
}

fn buckets_of(line: &[u8]) -> Option<PlanLine>
    ensures { option_map plan_line_seen result ≡ option_and_then buckets_line (strip (codes "buckets ") line.now) }
{
    buckets(strip(b"buckets ", line)?)
}

fn user_of(alloc: Global, line: &[u8]) -> Result<Option<PlanLine>, AllocError>
    ensures { IfOk result (λ found. option_map plan_line_seen found ≡ option_and_then user_line (strip (codes "user ") line.now)) }
{
    match strip(b"user ", line) {
        Some(rest) => user(alloc, rest),
        None => Ok(None),
    }
}

fn postmaster_of(alloc: Global, line: &[u8]) -> Result<Option<PlanLine>, AllocError>
    ensures { IfOk result (λ found. option_map plan_line_seen found ≡ option_and_then postmaster_line (strip (codes "postmaster ") line.now)) }
{
    match strip(b"postmaster ", line) {
        Some(rest) => postmaster(alloc, rest),
        None => Ok(None),
    }
}

fn go_of(line: &[u8]) -> Option<PlanLine>
    ensures { option_map plan_line_seen result ≡ option_and_then go_line (strip (codes "go") line.now) }
{
    go(strip(b"go", line)?)
}

// The lines that give numbers.
fn counts_of(line: &[u8]) -> Option<PlanLine>
    ensures { option_map plan_line_seen result ≡ counts_line line.now }
{
    if let Some(found) = nodes_of(line) {
        return Some(found);
    }
    if let Some(found) = copies_of(line) {
        return Some(found);
    }
    buckets_of(line)
}

// The lines that give names, and the last.
fn names_of(alloc: Global, line: &[u8]) -> Result<Option<PlanLine>, AllocError>
    ensures { IfOk result (λ found. option_map plan_line_seen found ≡ names_line line.now) }
{
    if let Some(found) = user_of(alloc, line)? {
        return Ok(Some(found));
    }
    if let Some(found) = postmaster_of(alloc, line)? {
        return Ok(Some(found));
    }
    Ok(go_of(line))
}

#[tactic(auto, using(crate::proofs::Lines::either_line))]
fn spelt_line(alloc: Global, line: &[u8]) -> Result<Option<PlanLine>, AllocError>
    ensures { IfOk result (λ found. option_map plan_line_seen found ≡ plan_line_of line.now) }
{
    if let Some(found) = counts_of(line) {
        return Ok(Some(found));
    }
    names_of(alloc, line)
}

/// The plan line that stands on the tape, given without its LF; nothing where it is no plan line.
///
/// # Errors
///
/// Out of memory alone, for a name or a secret.
pub fn read_plan_line(alloc: Global, raw: &[u8]) -> Result<Option<PlanLine>, AllocError>
    ensures { IfOk result (λ line. option_map plan_line_seen line ≡ tape_plan_line raw.now) }
{
    match tape_line(raw) {
        Some(line) => spelt_line(alloc, line),
        None => Ok(None),
    }
}
