//! Copies of trees.
ghost use Rattle.std.specs.Prelude.{◌≡◌, IfOk};
ghost use Rattle.lalrpop_hir.specs.Level.{kind_tree};

use crate::hir::{Capture, Hir, HirKind, Repetition};
use std::alloc::{AllocError, Global};

impl Clone for Hir {
    ghost is_clone = { λ t copy. copy ≡ t };

    fn clone(&self) -> Result<Hir, AllocError> {
        copy(self)
    }
}

impl Clone for HirKind {
    ghost is_clone = { λ k copy. kind_tree copy ≡ kind_tree k };

    fn clone(&self) -> Result<HirKind, AllocError> {
        copy_kind(self)
    }
}

impl Clone for Repetition {
    ghost is_clone = { λ r copy. copy ≡ r };

    fn clone(&self) -> Result<Repetition, AllocError> {
        copy_repetition(self)
    }
}

impl Clone for Capture {
    ghost is_clone = { λ c copy. copy ≡ c };

    fn clone(&self) -> Result<Capture, AllocError> {
        copy_capture(self)
    }
}

#[cycle(copy)]
fn copy(hir: &Hir) -> Result<Hir, AllocError>
    ensures { IfOk result (λ t. t ≡ hir.now) }
{
    Ok(Hir {
        kind: copy_kind(&hir.kind)?,
    })
}

#[cycle(copy)]
fn copy_kind(kind: &HirKind) -> Result<HirKind, AllocError>
    ensures { IfOk result (λ k. kind_tree k ≡ kind_tree kind.now) }
{
    match kind {
        HirKind::Empty => Ok(HirKind::Empty),
        HirKind::Literal(l) => Ok(HirKind::Literal(l.clone()?)),
        HirKind::Class(c) => Ok(HirKind::Class(c.clone()?)),
        HirKind::Look(l) => Ok(HirKind::Look(*l)),
        HirKind::Repetition(r) => Ok(HirKind::Repetition(copy_repetition(r)?)),
        HirKind::Capture(c) => Ok(HirKind::Capture(copy_capture(c)?)),
        HirKind::Concat(subs) => Ok(HirKind::Concat(copy_all(*subs.allocator(), subs)?)),
        HirKind::Alternation(subs) => Ok(HirKind::Alternation(copy_all(*subs.allocator(), subs)?)),
    }
}

#[cycle(copy)]
fn copy_repetition(r: &Repetition) -> Result<Repetition, AllocError>
    ensures { IfOk result (λ copy. copy ≡ r.now) }
{
    let sub = Box::new(*Box::allocator(&r.sub), copy(&r.sub)?)?;
    Ok(Repetition {
        min: r.min,
        max: r.max,
        greedy: r.greedy,
        sub,
    })
}

#[cycle(copy)]
fn copy_capture(c: &Capture) -> Result<Capture, AllocError>
    ensures { IfOk result (λ copy. copy ≡ c.now) }
{
    let sub = Box::new(*Box::allocator(&c.sub), copy(&c.sub)?)?;
    let name = match &c.name {
        None => None,
        Some(name) => Some(name.clone()?),
    };
    Ok(Capture { name, sub })
}

#[cycle(copy)]
fn copy_all(alloc: Global, subs: &[Hir]) -> Result<Vec<Hir>, AllocError>
    ensures { IfOk result (λ copies. copies.items ≡ subs.now) }
{
    let mut copies = Vec::with_capacity(alloc, subs.len())?;
    for sub in subs {
        copies.push(copy(sub)?)?;
    }
    Ok(copies)
}
