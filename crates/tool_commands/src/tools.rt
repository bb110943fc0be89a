//! The tools `dirquota`, `filescrn` and `storrept`, each read from the words after its name.

ghost use Rattle.fsrm_model.specs.lines.Line.{tool_words};
ghost use Rattle.fsrm_model.specs.lines.Tools.{dirquota, filescrn, storrept};
ghost use Rattle.command_words.specs.LineFaults.{Reads};
ghost use Rattle.command_words.specs.Taking.{left, end};

use crate::admin::admin;
use crate::autos::autoquota;
use crate::exceptions::exception;
use crate::groups::filegroup;
use crate::quotas::quota;
use crate::reports::reports;
use crate::screens::screen;
use crate::templates::template;
use command_words::{LineFault, Words, is_named};
use fsrm_model::{Boxed, Deed};
use std::alloc::Global;

/// What the words after `dirquota` spell.
#[inline(never)]
pub fn dirquota(alloc: Global, words: &mut Words<'_>) -> Result<Deed, LineFault>
    ensures { Reads result (tool_words dirquota (end words.old) (left words.old)) }
{
    let name = words.next(alloc)?;
    let word = name.text.as_str();
    if is_named("quota", word) {
        let deed = quota(alloc, words)?;
        return Ok(Deed::Quota(Boxed::new(alloc, deed)?));
    }
    if is_named("template", word) {
        let deed = template(alloc, words)?;
        return Ok(Deed::Template(Boxed::new(alloc, deed)?));
    }
    if is_named("autoquota", word) {
        let deed = autoquota(alloc, words)?;
        return Ok(Deed::Autoquota(Boxed::new(alloc, deed)?));
    }
    if is_named("admin", word) {
        return admin(alloc, words);
    }
    Err(LineFault::bad_line(name.column))
}

/// What the words after `filescrn` spell.
#[inline(never)]
pub fn filescrn(alloc: Global, words: &mut Words<'_>) -> Result<Deed, LineFault>
    ensures { Reads result (tool_words filescrn (end words.old) (left words.old)) }
{
    let name = words.next(alloc)?;
    let word = name.text.as_str();
    if is_named("filegroup", word) {
        let deed = filegroup(alloc, words)?;
        return Ok(Deed::Filegroup(Boxed::new(alloc, deed)?));
    }
    if is_named("screen", word) {
        let deed = screen(alloc, words)?;
        return Ok(Deed::Screen(Boxed::new(alloc, deed)?));
    }
    if is_named("exception", word) {
        let deed = exception(alloc, words)?;
        return Ok(Deed::Exception(Boxed::new(alloc, deed)?));
    }
    Err(LineFault::bad_line(name.column))
}

/// What the words after `storrept` spell.
#[inline(never)]
pub fn storrept(alloc: Global, words: &mut Words<'_>) -> Result<Deed, LineFault>
    ensures { Reads result (tool_words storrept (end words.old) (left words.old)) }
{
    let name = words.next(alloc)?;
    let word = name.text.as_str();
    if is_named("reports", word) {
        let deed = reports(alloc, words)?;
        return Ok(Deed::Reports(Boxed::new(alloc, deed)?));
    }
    Err(LineFault::bad_line(name.column))
}
