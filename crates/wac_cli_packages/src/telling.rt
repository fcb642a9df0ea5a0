// Telling what is wrong with files of packages.
use crate::faults::{Cause, PackageFault};
use crate::mentions::{mentioned_in, text_in};
use crate::options::Context;
use crate::supply::Supply;
use crate::tally::Tally;
use indexmap::IndexMap;
use std::alloc::{AllocError, Global};
use std::io::Write;
use wac_cli_console::{Console, Outcome, SourceFile};
use wac_diagnostics::Diagnostic;
use wac_graph::PackageKey;
use wac_lexer::SourceSpan;
use wac_package_errors::declaration_diagnostic;
use wac_package_names::push_key;

/// Whether the package of a fault is one of these.
fn is_of(fault: &PackageFault, packages: &IndexMap<PackageKey, ()>) -> bool {
    match &fault.key {
        Some(key) => packages.contains_key(key),
        None => false,
    }
}

impl Supply {
    /// Tells what is wrong with the files that were named, and notes what became of the others. It is done once.
    pub(crate) fn begin<O: Write + Drop, E: Write + Drop>(
        &self,
        console: &mut Console<O, E>,
        context: Context<'_>,
        tally: &mut Tally,
    ) -> Result<(), AllocError> {
        let number = self.number;
        if !tally.is_first(format!(in context.alloc; "{number}")?)? {
            return Ok(());
        }
        self.tell_named(console, context, tally)?;
        self.note_documents(context.alloc, tally)?;
        self.note_components(context.alloc, tally)
    }

    /// Tells what is wrong with the files that were named.
    fn tell_named<O: Write + Drop, E: Write + Drop>(
        &self,
        console: &mut Console<O, E>,
        context: Context<'_>,
        tally: &mut Tally,
    ) -> Result<(), AllocError> {
        for fault in self.sources.faults.as_slice() {
            if fault.is_named {
                self.tell(console, context, tally, fault)?;
            }
        }
        Ok(())
    }

    /// Notes the documents that declare packages, and those that were named.
    fn note_documents(&self, alloc: Global, tally: &mut Tally) -> Result<(), AllocError> {
        for origin in self.sources.origins.as_slice() {
            if origin.is_declared {
                tally.note(alloc, origin.place.as_str(), Outcome::Good)?;
            } else if origin.is_named {
                tally.note(alloc, origin.place.as_str(), Outcome::Unresolved)?;
            }
        }
        Ok(())
    }

    /// Notes the components with packages.
    fn note_components(&self, alloc: Global, tally: &mut Tally) -> Result<(), AllocError> {
        for component in self.good.as_slice() {
            tally.note(alloc, component.place.as_str(), Outcome::Good)?;
        }
        Ok(())
    }

    /// Whether two files of a package are in each other's way, which weren't named.
    pub(crate) fn has_conflicts(&self) -> bool {
        self.sources
            .faults
            .as_slice()
            .iter()
            .any(|fault| !fault.is_named && fault.is_conflict())
    }

    /// Tells what is wrong with the files of packages that bytes mention, directly or through declared packages.
    pub(crate) fn tell_mentioned<O: Write + Drop, E: Write + Drop>(
        &self,
        console: &mut Console<O, E>,
        context: Context<'_>,
        tally: &mut Tally,
        bytes: &[u8],
    ) -> Result<(), AllocError> {
        if self.sources.faults.is_empty() {
            return Ok(());
        }
        let text = text_in(context.alloc, bytes)?;
        let reached = self.reached(context.alloc, tally, text)?;
        self.note_unresolved(context.alloc, tally, &reached)?;
        self.tell_each(console, context, tally, &reached)
    }

    /// Tells which files that were found couldn't be read, so that nobody knows their packages.
    pub(crate) fn tell_unread<O: Write + Drop, E: Write + Drop>(
        &self,
        console: &mut Console<O, E>,
        context: Context<'_>,
        tally: &mut Tally,
    ) -> Result<(), AllocError> {
        for fault in self.sources.faults.as_slice() {
            if fault.key.is_none() && matches!(fault.cause, Cause::Unread(_)) {
                self.tell(console, context, tally, fault)?;
            }
        }
        Ok(())
    }

    /// The packages that a text mentions, directly or through declared packages, without those that earlier ones did.
    fn reached(
        &self,
        alloc: Global,
        tally: &mut Tally,
        text: &str,
    ) -> Result<IndexMap<PackageKey, ()>, AllocError> {
        let mut reached = IndexMap::new(alloc);
        self.reach(alloc, tally, &mut reached, mentioned_in(alloc, text)?)?;
        for at in 0..usize::MAX {
            let number = match reached.get_index(at) {
                Some((key, _)) => self.document_of(key),
                None => break,
            };
            if let Some(number) = number {
                let text = self.sources.text(number);
                self.reach(alloc, tally, &mut reached, mentioned_in(alloc, text)?)?;
            }
        }
        Ok(reached)
    }

    /// Adds packages, unless they were reached before.
    fn reach(
        &self,
        alloc: Global,
        tally: &mut Tally,
        reached: &mut IndexMap<PackageKey, ()>,
        mentioned: IndexMap<PackageKey, SourceSpan>,
    ) -> Result<(), AllocError> {
        for (key, _) in mentioned {
            let mut name = format!(in alloc; "{} ", self.number)?;
            push_key(&mut name, &key)?;
            if tally.is_first(name)? {
                reached.insert(key, ())?;
            }
        }
        Ok(())
    }

    /// The number of the document of a package, unless it has a fault.
    fn document_of(&self, key: &PackageKey) -> Option<usize> {
        let number = *self.declared.texts.get(key)?;
        if self
            .declared
            .faults
            .as_slice()
            .iter()
            .any(|fault| fault.text == number)
        {
            None
        } else {
            Some(number)
        }
    }

    /// Notes the documents of packages that couldn't be resolved.
    fn note_unresolved(
        &self,
        alloc: Global,
        tally: &mut Tally,
        packages: &IndexMap<PackageKey, ()>,
    ) -> Result<(), AllocError> {
        for (key, _) in packages.iter() {
            if let Some(number) = self.document_of(key) {
                if let Some(origin) = self.sources.origins.get(number) {
                    if !origin.is_declared {
                        tally.note(alloc, origin.place.as_str(), Outcome::Unresolved)?;
                    }
                }
            }
        }
        Ok(())
    }

    /// Tells what is wrong with the files of these packages.
    fn tell_each<O: Write + Drop, E: Write + Drop>(
        &self,
        console: &mut Console<O, E>,
        context: Context<'_>,
        tally: &mut Tally,
        packages: &IndexMap<PackageKey, ()>,
    ) -> Result<(), AllocError> {
        for fault in self.sources.faults.as_slice() {
            if is_of(fault, packages) {
                self.tell(console, context, tally, fault)?;
            }
        }
        Ok(())
    }

    /// Tells what is wrong with a file, unless something was told of it.
    fn tell<O: Write + Drop, E: Write + Drop>(
        &self,
        console: &mut Console<O, E>,
        context: Context<'_>,
        tally: &mut Tally,
        fault: &PackageFault,
    ) -> Result<(), AllocError> {
        if tally.is_told(fault.place.as_str()) {
            return Ok(());
        }
        let outcome = self.told(console, context, fault)?;
        tally.note(context.alloc, fault.place.as_str(), outcome)
    }

    /// Tells what is wrong with a file. Returns what became of it.
    fn told<O: Write + Drop, E: Write + Drop>(
        &self,
        console: &mut Console<O, E>,
        context: Context<'_>,
        fault: &PackageFault,
    ) -> Result<Outcome, AllocError> {
        let path = fault.path.as_str();
        match &fault.cause {
            Cause::Unread(error) => {
                Ok(console.failed(context.alloc, context.report, path, *error))
            }
            Cause::Rejected(diagnostic, bytes) => {
                let file = SourceFile {
                    path,
                    text: bytes.as_slice(),
                };
                reject(console, context, &file, diagnostic)
            }
            Cause::Conflict(diagnostic) => {
                reject(
                    console,
                    context,
                    &SourceFile { path, text: b"" },
                    diagnostic,
                )
            }
            Cause::Declared(number) | Cause::DeclaredTwice(number) => {
                self.told_declaration(console, context, path, *number)
            }
        }
    }

    /// Tells what is wrong with what a document declares.
    fn told_declaration<O: Write + Drop, E: Write + Drop>(
        &self,
        console: &mut Console<O, E>,
        context: Context<'_>,
        path: &str,
        number: usize,
    ) -> Result<Outcome, AllocError> {
        let Some(fault) = self.declared.faults.get(number) else {
            return Ok(Outcome::Good);
        };
        let text = self.sources.text(fault.text);
        let diagnostic = declaration_diagnostic(context.alloc, text, &fault.error, context.known)?;
        let file = SourceFile {
            path,
            text: text.as_bytes(),
        };
        reject(console, context, &file, &diagnostic)
    }
}

/// Reports what is wrong with a file.
pub(crate) fn reject<O: Write + Drop, E: Write + Drop>(
    console: &mut Console<O, E>,
    context: Context<'_>,
    file: &SourceFile<'_>,
    diagnostic: &Diagnostic,
) -> Result<Outcome, AllocError> {
    console.report(context.alloc, context.report, file, diagnostic)?;
    Ok(Outcome::Rejected)
}
