//! The packages that many texts declare.
ghost use Rattle.std.specs.Prelude.{◌≡◌, IfOk, OnOk, vec_len};
ghost use Rattle.wac_declared_packages.specs.Together.{AreDeclared, AreFrom, IsWhole, now_of};

use crate::cycles::reject_cycles;
use crate::ending::reject_lacking;
use crate::error::{DeclarationError, DeclarationFault};
use crate::making::make_all;
use crate::outlines::Outlines;
use crate::sources::Sources;
use indexmap::IndexMap;
use std::alloc::{AllocError, Global};
use wac_graph::{Package, PackageKey};

/// The packages that texts declare.
#[derive(Drop)]
pub struct Declared {
    /// The packages of the texts without a fault, each after those that it mentions.
    pub packages: IndexMap<PackageKey, Package>,
    /// The number of the text that declares a package, counted from 0. Packages that couldn't be made are listed too.
    pub texts: IndexMap<PackageKey, usize>,
    /// At most one fault a text. A text that mentions a faulty one has neither a package nor a fault.
    pub faults: Vec<DeclarationFault>,
}

/// The packages that texts declare, and what each text says of itself.
#[derive(Drop)]
struct Work {
    packages: IndexMap<PackageKey, Package>,
    outlines: Outlines,
}

/// Rejects the first text of each cycle, and a text whose package is lacking where there is no fault.
fn reject_unmade(
    alloc: Global,
    sources: &Sources<'_>,
    outlines: &mut Outlines,
    packages: &IndexMap<PackageKey, Package>,
) -> Result<(), AllocError>
    ensures { OnOk result (vec_len outlines.new.faults ≡ 0
        → IsWhole (now_of sources.now.texts.now) packages.now.entries) }
{
    reject_cycles(outlines, packages)?;
    reject_lacking(alloc, sources, outlines, packages)
}

/// Makes the packages of texts, and rejects those that have none.
fn declare(alloc: Global, sources: &Sources<'_>) -> Result<Work, AllocError>
    ensures declared { IfOk result (λ work. AreFrom sources.now work.packages.entries) }
    ensures all { IfOk result (λ work. vec_len work.outlines.faults ≡ 0
        → IsWhole (now_of sources.now.texts.now) work.packages.entries) }
{
    let mut outlines = Outlines::of_texts(alloc, sources.texts)?;
    let packages = make_all(alloc, &mut outlines, sources)?;
    reject_unmade(alloc, sources, &mut outlines, &packages)?;
    Ok(Work { packages, outlines })
}

/// The packages that texts declare, in any order: each text is resolved after those that it mentions.
///
/// `worlds` has the names of the worlds that are chosen, by the packages for which they are. Each text has its first
/// error, of these: it has no tree; a target, or a statement of another sort; an earlier text declares its package too; a
/// package that no text declares; what resolving reports; a cycle, in its first text, at the mention that goes on in it.
/// What mentions a faulty text isn't resolved, and has no error of its own. The error is that memory ran out.
///
/// ```text
/// let declared = declare_all(alloc, &[cache, store], &worlds)?;
/// ```
pub fn declare_all(
    alloc: Global,
    texts: &[&str],
    worlds: &IndexMap<PackageKey, String>,
) -> Result<Declared, AllocError>
    // Each package is the one that a text's document declares, resolved with others of them.
    ensures declared { IfOk result (λ d. AreDeclared (now_of texts.now) worlds.now.entries d.packages.entries) }
    // There is one for each text, and no other, unless there is a fault.
    ensures all { IfOk result (λ d. vec_len d.faults ≡ 0 → IsWhole (now_of texts.now) d.packages.entries) }
{
    let sources = Sources { texts, worlds };
    let Work { packages, outlines } = declare(alloc, &sources)?;
    let Outlines {
        headers: _,
        texts,
        faults,
        sizes: _,
    } = outlines;
    Ok(Declared {
        packages,
        texts,
        faults,
    })
}

/// The packages, where there is no fault; else the first fault.
fn without_faults(work: Work) -> Result<IndexMap<PackageKey, Package>, DeclarationFault>
    ensures same { IfOk result (λ packages. packages ≡ work.packages) }
    ensures none { IfOk result (λ _. vec_len work.outlines.faults ≡ 0) }
{
    let Work { packages, outlines } = work;
    let Outlines {
        headers: _,
        texts: _,
        faults,
        sizes: _,
    } = outlines;
    match faults.into_iter().next() {
        Some(fault) => Err(fault),
        None => Ok(packages),
    }
}

/// The packages that texts declare, in any order, one of each text; or the first fault. It is as [`declare_all`] has it.
pub fn declared_packages(
    alloc: Global,
    texts: &[&str],
    worlds: &IndexMap<PackageKey, String>,
) -> Result<IndexMap<PackageKey, Package>, DeclarationFault>
    // Each package is the one that a text's document declares, resolved with others of them.
    ensures declared { IfOk result (λ packages. AreDeclared (now_of texts.now) worlds.now.entries packages.entries) }
    // There is one for each text, and no other.
    ensures all { IfOk result (λ packages. IsWhole (now_of texts.now) packages.entries) }
{
    let sources = Sources { texts, worlds };
    match declare(alloc, &sources) {
        Ok(work) => without_faults(work),
        Err(refused) => Err(DeclarationFault {
            text: 0,
            error: DeclarationError::Memory(refused),
        }),
    }
}
