//! Who has the lines of one chip, by offset.
ghost use Rattle.std.specs.Prelude.{◌≡◌, ◌-◌, ◌<◌, ◌≤◌, ◌++◌, length, take, replicate, IfOk, OnOk, OnErr, IsOkUnless};
ghost use Rattle.std.specs.Result.{result_err};
ghost use Rattle.std.specs.Str.{bytes_eq};
ghost use Rattle.gl_base.specs.Lines.{IsLineCount, offsets_of};
ghost use Rattle.gl_base.specs.declared.limits.TheConstants.{LINES_MAX, LINES_PER_REQUEST};
ghost use Rattle.gl_base.specs.Positions.{change_at, change_each, first_fault};
ghost use Rattle.gl_desc.specs.Names.{NamesEndBy};
ghost use Rattle.gl_desc.specs.Desc.{first_desc, desc_at, stands_earlier, line_fault, claim_fault, claimed, settled, freed, named, hogged};

use crate::desc::{Desc, Holder, LineFault, is_free, settled_holder};
use gl_base::{Errno, LINES_MAX, Lines, Name};
use std::alloc::Global;
use std::marker::Model;

/// The lines of a chip, by offset: each has at most one holder. Contracts see the list of them. There is room for
/// as many lines as a chip has at most.
#[derive(Drop)]
pub struct Descs {
    lines: Vec<Desc>,
    /// Behind the last line that was ever named: who looks for a name needs to look no further.
    names_end: usize,
}

impl Model for Descs {
    ghost use Rattle.std.specs.Prelude.{◌≤◌, List, vec_capacity};
    ghost use Rattle.gl_base.specs.declared.limits.TheConstants.{LINES_MAX};
    ghost use Rattle.gl_desc.specs.Names.{NamesEndBy};
    ghost use Rattle.gl_desc.specs.declared.desc.Desc.{Desc};

    ghost Value = { List Desc };

    ghost view = { λ d. d.lines.items };

    ghost invariant = { λ d. (LINES_MAX ≤ vec_capacity d.lines) × NamesEndBy d.lines.items d.names_end };
}

impl Descs {
    /// So many lines, which nobody has and which have no name. It takes the memory of `LINES_MAX` lines, and writes to
    /// that of its own alone.
    pub fn new(alloc: Global, lines: u32) -> Result<Descs, Errno>
        requires { lines ≤ LINES_MAX }
        ensures ok { IfOk result (λ descs. descs ≡ replicate lines first_desc) }
        ensures memory_alone { IsOkUnless result Errno.NoMemory }
    {
        let rows = Vec::with_capacity(alloc, LINES_MAX as usize)?;
        let mut descs = Descs {
            lines: rows,
            names_end: 0,
        };
        descs.fit(lines);
        Ok(descs)
    }

    /// Keeps the first lines, so many; where there are fewer, new ones come behind them. It takes no memory.
    #[tactic(auto, using(crate::proofs::Names::kept))]
    pub fn fit(&mut self, lines: u32)
        requires { lines ≤ LINES_MAX }
        ensures { self.new ≡ take lines self.old ++ replicate (lines - length self.old) first_desc }
    {
        let first = Desc {
            name: Name::empty(),
            holder: Holder::Free,
            consumer: Name::empty(),
        };
        match self.lines.resize(lines as usize, first) {
            Ok(()) => {}
            Err(_) => {}
        }
    }

    /// Claims the lines of a request. The first faulty line decides, and then nothing changes: `BadOffset`
    /// at or past the number of lines; `Busy` where somebody has the line, or where it stands earlier in
    /// the request.
    #[tactic(auto, using(crate::proofs::Lengths::as_many_lines, crate::proofs::Names::kept))]
    pub fn claim(&mut self, lines: &Lines, fd: u32, consumer: Name) -> Result<(), LineFault>
        requires { IsLineCount lines.now.count }
        ensures fault { result_err result ≡ claim_fault self.old lines.now }
        ensures ok { OnOk result (self.new ≡ change_each first_desc (offsets_of lines.now) (claimed fd consumer) self.old) }
        ensures err { OnErr result (self.new ≡ self.old) }
        ensures as_many { length self.new ≡ length self.old }
    {
        match first_faulty(&self.lines, lines) {
            Some(fault) => Err(fault),
            None => {
                claim_each(&mut self.lines, lines.offsets(), fd, consumer);
                Ok(())
            }
        }
    }

    /// What is wrong with the line at position `i` of a request, if something is.
    pub fn line_fault(&self, lines: &Lines, i: u32) -> Option<LineFault>
        requires { i < LINES_PER_REQUEST }
        ensures { result ≡ line_fault self.now lines.now.offsets i }
    {
        line_fault(&self.lines, lines, i)
    }

    /// The lines that a request claimed are held by it. A line that isn't claimed stays as it is.
    #[tactic(auto, using(crate::proofs::Lengths::as_many_lines, crate::proofs::Names::kept))]
    pub fn settle(&mut self, lines: &Lines)
        requires { IsLineCount lines.now.count }
        ensures lines { self.new ≡ change_each first_desc (offsets_of lines.now) settled self.old }
        ensures as_many { length self.new ≡ length self.old }
    {
        settle_each(&mut self.lines, lines.offsets());
    }

    /// Nobody has the lines of a request any more.
    #[tactic(auto, using(crate::proofs::Lengths::as_many_lines, crate::proofs::Names::kept))]
    pub fn free(&mut self, lines: &Lines)
        requires { IsLineCount lines.now.count }
        ensures lines { self.new ≡ change_each first_desc (offsets_of lines.now) freed self.old }
        ensures as_many { length self.new ≡ length self.old }
    {
        free_each(&mut self.lines, lines.offsets());
    }

    /// How a line stands.
    pub fn line(&self, offset: u32) -> Desc
        requires { offset < length self.now }
        ensures { result ≡ desc_at self.now offset }
    {
        self.lines[offset as usize]
    }

    /// Who has a line.
    pub fn holder(&self, offset: u32) -> Holder
        requires { offset < length self.now }
        ensures { result ≡ (desc_at self.now offset).holder }
    {
        self.lines[offset as usize].holder
    }

    /// What whoever has a line calls itself.
    pub fn consumer(&self, offset: u32) -> Name
        requires { offset < length self.now }
        ensures { result ≡ (desc_at self.now offset).consumer }
    {
        self.lines[offset as usize].consumer
    }

    /// The name of a line.
    pub fn name(&self, offset: u32) -> Name
        requires { offset < length self.now }
        ensures { result ≡ (desc_at self.now offset).name }
    {
        self.lines[offset as usize].name
    }

    /// Whether a line has this name.
    pub fn is_named(&self, offset: u32, name: &Name) -> bool
        requires { offset < length self.now }
        ensures { result ≡ bytes_eq (desc_at self.now offset).name name.now }
    {
        self.lines[offset as usize].name == *name
    }

    /// Behind which lines none has a name: none at this offset, or at a later one.
    pub fn names_end(&self) -> usize
        ensures { NamesEndBy self.now result }
    {
        self.names_end
    }

    /// Names a line. An offset past the lines changes nothing.
    #[tactic(auto, using(crate::proofs::Names::kept))]
    pub fn set_name(&mut self, offset: u32, name: Name)
        ensures { self.new ≡ change_at first_desc offset (named name) self.old }
    {
        self.names_end = self.names_end.max(offset as usize + 1);
        set_name(&mut self.lines, offset as usize, name);
    }

    /// The board itself holds a line from now on. An offset past the lines changes nothing.
    #[tactic(auto, using(crate::proofs::Names::kept))]
    pub fn hog(&mut self, offset: u32, consumer: Name)
        ensures { self.new ≡ change_at first_desc offset (hogged consumer) self.old }
    {
        hog(&mut self.lines, offset as usize, consumer);
    }
}

/// Whether the offset at position `i` stands earlier.
fn stands_earlier(offsets: &[u32], i: usize) -> bool
    requires { i < length offsets.now }
    ensures { result ≡ stands_earlier offsets.now i }
{
    let offset = offsets[i];
    offsets[..i].iter().any(|other| *other == offset)
}

/// What is wrong with the line at position `i` of a request.
fn line_fault(descs: &[Desc], lines: &Lines, i: u32) -> Option<LineFault>
    requires { i < LINES_PER_REQUEST }
    ensures { result ≡ line_fault descs.now lines.now.offsets i }
{
    let offset = lines.offsets[i as usize] as usize;
    if offset >= descs.len() {
        return Some(LineFault::BadOffset);
    }
    if !is_free(descs[offset].holder) || stands_earlier(&lines.offsets, i as usize) {
        return Some(LineFault::Busy);
    }
    None
}

/// What is wrong with the first faulty line of a request.
#[tactic(auto, using(gl_base::proofs::AtPositions::first_fault_more, gl_base::proofs::AtPositions::first_fault_here, gl_base::proofs::AtPositions::first_fault_all))]
fn first_faulty(descs: &[Desc], lines: &Lines) -> Option<LineFault>
    requires { IsLineCount lines.now.count }
    ensures { result ≡ claim_fault descs.now lines.now }
{
    for i in 0..lines.count {
        if let Some(fault) = line_fault(descs, lines, i) {
            return Some(fault);
        }
    }
    None
}

/// Claims the lines at these offsets.
#[tactic(auto, using(gl_base::proofs::AtPositions::change_each_more))]
fn claim_each(descs: &mut [Desc], offsets: &[u32], fd: u32, consumer: Name)
    ensures { descs.new ≡ change_each first_desc offsets.now (claimed fd consumer) descs.old }
{
    for offset in offsets {
        claim_one(descs, *offset as usize, fd, consumer);
    }
}

/// Claims the line at an offset.
fn claim_one(descs: &mut [Desc], offset: usize, fd: u32, consumer: Name)
    ensures { descs.new ≡ change_at first_desc offset (claimed fd consumer) descs.old }
{
    if offset < descs.len() {
        let line = &mut descs[offset];
        line.holder = Holder::Claimed(fd);
        line.consumer = consumer;
    }
}

/// Makes the claims of the lines at these offsets holds.
#[tactic(auto, using(gl_base::proofs::AtPositions::change_each_more))]
fn settle_each(descs: &mut [Desc], offsets: &[u32])
    ensures { descs.new ≡ change_each first_desc offsets.now settled descs.old }
{
    for offset in offsets {
        settle_one(descs, *offset as usize);
    }
}

/// Makes the claim of the line at an offset a hold.
fn settle_one(descs: &mut [Desc], offset: usize)
    ensures { descs.new ≡ change_at first_desc offset settled descs.old }
{
    if offset < descs.len() {
        let line = &mut descs[offset];
        line.holder = settled_holder(line.holder);
    }
}

/// Frees the lines at these offsets.
#[tactic(auto, using(gl_base::proofs::AtPositions::change_each_more))]
fn free_each(descs: &mut [Desc], offsets: &[u32])
    ensures { descs.new ≡ change_each first_desc offsets.now freed descs.old }
{
    for offset in offsets {
        free_one(descs, *offset as usize);
    }
}

/// Frees the line at an offset.
fn free_one(descs: &mut [Desc], offset: usize)
    ensures { descs.new ≡ change_at first_desc offset freed descs.old }
{
    if offset < descs.len() {
        let line = &mut descs[offset];
        line.holder = Holder::Free;
        line.consumer = Name::empty();
    }
}

/// Names the line at an offset.
fn set_name(descs: &mut [Desc], offset: usize, name: Name)
    ensures { descs.new ≡ change_at first_desc offset (named name) descs.old }
{
    if offset < descs.len() {
        descs[offset].name = name;
    }
}

/// Hogs the line at an offset.
fn hog(descs: &mut [Desc], offset: usize, consumer: Name)
    ensures { descs.new ≡ change_at first_desc offset (hogged consumer) descs.old }
{
    if offset < descs.len() {
        let line = &mut descs[offset];
        line.holder = Holder::Hog;
        line.consumer = consumer;
    }
}
