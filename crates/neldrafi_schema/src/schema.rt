//! A compiled schema, and its three calls on an instance.

ghost use Rattle.std.specs.Prelude.{◌↔◌, ◌≡◌, ◌⊎◌, ◌++◌, ◌∷◌, ℕ, IfErr, IfOk, IsTrue, List, OnErr, OnOk, [], string_bytes};
ghost use Rattle.serde_json.specs.View.{view};
ghost use Rattle.strkw_keywords.specs.Handed.{lists_of};
ghost use Rattle.neldrafi_schema.specs.Errors.{Error};
ghost use Rattle.neldrafi_schema.specs.Annotations.{HasAnnotations};
ghost use Rattle.neldrafi_schema.specs.machine.Annotated.{annotations_of};
ghost use Rattle.neldrafi_schema.specs.machine.Closures.{AreTextErrors, IsTextVerdict, text_in};
ghost use Rattle.neldrafi_schema.specs.machine.Found.{Appended, IsAnswer, errors_of};
ghost use Rattle.neldrafi_schema.specs.Meaning.{HasErrors, root_site};
ghost use Rattle.neldrafi_schema.specs.machine.Problems.{reason_of};
ghost use Rattle.neldrafi_schema.specs.machine.Ready.{RestsOn};
ghost use Rattle.neldrafi_schema.specs.machine.Words.{IsCompiled, lists_in, schemas_in};
ghost use Rattle.neldrafi_schema.specs.Refusals.{IsRefused, IsSaid};
ghost use Rattle.neldrafi_schema.specs.Schemas.{out_of_memory};
ghost use Rattle.neldrafi_schema.specs.Settings.{config_settings, documents_for};

use crate::annotation::{Annotation, Evaluation};
use crate::collecting::{Collector, Visit};
use crate::compile::read_document;
use crate::config::Config;
use crate::error::{Fault, ValidationError};
use crate::node::Node;
use crate::refusal::SchemaError;
use crate::validity::Checker;
use serde_json::Value;
use std::alloc::{AllocError, Global};
use strkw_keywords::{Checks, ContentCodec, Format, MediaTypeCheck, Validate, Validator};
use strkw_pattern::{EngineBuilder, RegexEngine};
use strkw_report::{Location, Site, ValidationError as TextError};

/// A schema document, compiled. Its calls rest on one meaning: the errors that an instance has by the document.
#[derive(Drop)]
pub struct Schema<'a, E> {
    pub(crate) nodes: Vec<Node<E>>,
    pub(crate) checks: Checks<'a>,
}

impl<'a, E: RegexEngine> Schema<'a, E> {
    /// Compiles a document, of the draft of its `$schema`, or of `config`, or 2020-12. References lead to its own schemas,
    /// or to those of the further documents of `config` (Core 2020-12, section 8.2.3).
    ///
    /// It is refused at the first value that has no meaning, or the first reference that leads back to itself without
    /// entering the instance, whichever comes first in the order of the document: an object comes before its members,
    /// and these by the bytes of their keys. Refusals in further documents come last. If out of memory, it fails with
    /// `Memory`, at the root.
    pub fn compile<B: EngineBuilder<Engine = E>>(
        alloc: Global,
        document: &Value,
        config: &Config<'a, B>,
    ) -> Result<Schema<'a, E>, SchemaError>
        ensures said { let s = config_settings B.takes B.outcome admits accepts is_encoding decoding
            config.now in
            IfOk result (λ schema. IsSaid s (documents_for config.now (view document.now))
            (schemas_in E.outcome schema)) }
        ensures ready { IfOk result (λ schema. IsCompiled E.outcome
            (lists_in admits accepts is_encoding decoding schema) schema) }
        ensures lists { IfOk result (λ schema.
            lists_in admits accepts is_encoding decoding schema
            ≡ lists_of admits accepts is_encoding decoding config.now.checks) }
        ensures refused { let s = config_settings B.takes B.outcome admits accepts is_encoding
            decoding config.now in
            IfErr result (λ e. (reason_of e.kind ≡ out_of_memory)
            ⊎ IsRefused s (documents_for config.now (view document.now)) (reason_of e.kind)
            (string_bytes e.uri) e.location) }
    {
        let nodes = read_document(alloc, config, document)?;
        Ok(Schema {
            nodes,
            checks: Checks {
                formats: config.checks.formats,
                media_types: config.checks.media_types,
                codecs: config.checks.codecs,
            },
        })
    }

    /// Whether an instance has no errors. The only error is out of memory.
    pub fn is_valid(&self, alloc: Global, instance: &Value) -> Result<bool, AllocError>
        requires { IsCompiled E.outcome
            (lists_in admits accepts is_encoding decoding self.now) self.now }
        ensures { IfOk result (λ b. IsTrue b ↔ HasErrors
            (schemas_in E.outcome self.now)
            (lists_in admits accepts is_encoding decoding self.now)
            (view instance.now) []) }
    {
        let checks = &self.checks;
        let text_accepts = |validator: &Validator<E>, text: Option<&str>| -> Result<
            bool,
            AllocError,
        >
            requires { RestsOn E.outcome
                (lists_of admits accepts is_encoding decoding checks.now) validator.now }
            ensures { IsTextVerdict E.outcome
                (lists_of admits accepts is_encoding decoding checks.entry.now)
                validator.now (text_in text.entry) result }
        { validator.is_valid(alloc, &text, checks) };
        let checker = Checker {
            nodes: &self.nodes,
            text_accepts: &text_accepts,
        };
        checker.accepts(alloc, 0, self.nodes.len(), instance)
    }

    /// `Ok` where an instance has no errors.
    ///
    /// Errors: `Fault::Invalid` of the first of the errors that `collect_errors` appends, and `Fault::Memory`.
    pub fn validate(&self, alloc: Global, instance: &Value) -> Result<(), Fault>
        requires { IsCompiled E.outcome
            (lists_in admits accepts is_encoding decoding self.now) self.now }
        ensures { IsAnswer (HasErrors (schemas_in E.outcome self.now)
            (lists_in admits accepts is_encoding decoding self.now)
            (view instance.now)) result }
    {
        match self.errors(alloc, instance)?.into_iter().next() {
            None => Ok(()),
            Some(error) => Err(Fault::Invalid(error)),
        }
    }

    /// Appends the errors of an instance, in the order of the keywords: that of the document's members. The only error
    /// is out of memory; the vector then holds what it held.
    pub fn collect_errors(
        &self,
        alloc: Global,
        instance: &Value,
        errors: &mut Vec<ValidationError>,
    ) -> Result<(), AllocError>
        requires { IsCompiled E.outcome
            (lists_in admits accepts is_encoding decoding self.now) self.now }
        ensures ok { OnOk result (Appended (HasErrors
            (schemas_in E.outcome self.now)
            (lists_in admits accepts is_encoding decoding self.now)
            (view instance.now)) errors.old.items errors.new.items) }
        ensures err { OnErr result (errors.new.items ≡ errors.old.items) }
    {
        errors.append(&mut self.errors(alloc, instance)?)
    }

    /// The errors of an instance, as `collect_errors` appends them, and its annotations if it has no errors: those of
    /// each schema object that applies to the instance or a part of it, before those of its subschemas, in the order of
    /// the document's members (Core 2020-12, section 7.7.1). What is not valid by a schema has no annotations of it.
    /// Those of `format`, `contentEncoding`, `contentMediaType` and `contentSchema` are of strings alone. The only error
    /// is out of memory.
    pub fn evaluate(&self, alloc: Global, instance: &Value) -> Result<Evaluation, AllocError>
        requires { IsCompiled E.outcome
            (lists_in admits accepts is_encoding decoding self.now) self.now }
        ensures errors { IfOk result (λ e. HasErrors (schemas_in E.outcome self.now)
            (lists_in admits accepts is_encoding decoding self.now)
            (view instance.now) (errors_of e.errors.items)) }
        ensures annotations { IfOk result (λ e. HasAnnotations (schemas_in E.outcome self.now)
            (lists_in admits accepts is_encoding decoding self.now)
            (view instance.now) (errors_of e.errors.items) (annotations_of e.annotations.items)) }
    {
        let errors = self.errors(alloc, instance)?;
        let annotations = if errors.is_empty() {
            self.annotations(alloc, instance)?
        } else {
            Vec::new(alloc)
        };
        Ok(Evaluation {
            errors,
            annotations,
        })
    }

    // The annotations of an instance that is valid.
    fn annotations(&self, alloc: Global, instance: &Value) -> Result<Vec<Annotation>, AllocError>
        requires { IsCompiled E.outcome
            (lists_in admits accepts is_encoding decoding self.now) self.now }
        ensures { IfOk result (λ found. HasAnnotations (schemas_in E.outcome self.now)
            (lists_in admits accepts is_encoding decoding self.now)
            (view instance.now) [] (annotations_of found.items)) }
    {
        let checks = &self.checks;
        let text_accepts = |validator: &Validator<E>, text: Option<&str>| -> Result<
            bool,
            AllocError,
        >
            requires { RestsOn E.outcome
                (lists_of admits accepts is_encoding decoding checks.now) validator.now }
            ensures { IsTextVerdict E.outcome
                (lists_of admits accepts is_encoding decoding checks.entry.now)
                validator.now (text_in text.entry) result }
        { validator.is_valid(alloc, &text, checks) };
        let checker = Checker {
            nodes: &self.nodes,
            text_accepts: &text_accepts,
        };
        let site = root_site(alloc);
        let visit = Visit {
            instance,
            site: &site,
        };
        let mut found = Vec::new(alloc);
        checker.annotate(alloc, 0, self.nodes.len(), &visit, &mut found)?;
        Ok(found)
    }

    // The errors of an instance.
    fn errors(&self, alloc: Global, instance: &Value) -> Result<Vec<ValidationError>, AllocError>
        requires { IsCompiled E.outcome
            (lists_in admits accepts is_encoding decoding self.now) self.now }
        ensures { IfOk result (λ es. HasErrors (schemas_in E.outcome self.now)
            (lists_in admits accepts is_encoding decoding self.now)
            (view instance.now) (errors_of es.items)) }
    {
        let checks = &self.checks;
        let text_accepts = |validator: &Validator<E>, text: Option<&str>| -> Result<
            bool,
            AllocError,
        >
            requires { RestsOn E.outcome
                (lists_of admits accepts is_encoding decoding checks.now) validator.now }
            ensures { IsTextVerdict E.outcome
                (lists_of admits accepts is_encoding decoding checks.entry.now)
                validator.now (text_in text.entry) result }
        { validator.is_valid(alloc, &text, checks) };
        let text_errors = |validator: &Validator<E>, text: Option<&str>, site: &Site| -> Result<
            Vec<TextError>,
            AllocError,
        >
            requires { RestsOn E.outcome
                (lists_of admits accepts is_encoding decoding checks.now) validator.now }
            ensures { AreTextErrors E.outcome
                (lists_of admits accepts is_encoding decoding checks.entry.now)
                validator.now (text_in text.entry) site.now result }
        {
            let mut errors = Vec::new(alloc);
            validator.collect_errors(alloc, &text, site, checks, &mut errors)?;
            Ok(errors)
        };
        let collector = Collector {
            checker: Checker {
                nodes: &self.nodes,
                text_accepts: &text_accepts,
            },
            text_errors: &text_errors,
        };
        let site = root_site(alloc);
        let visit = Visit {
            instance,
            site: &site,
        };
        let mut errors = Vec::new(alloc);
        collector.push_errors(alloc, 0, self.nodes.len(), &visit, &mut errors)?;
        Ok(errors)
    }
}

// Where a schema and an instance are that are not within others.
fn root_site(alloc: Global) -> Site
    ensures { result ≡ root_site }
{
    Site {
        evaluation: Location::root(alloc),
        instance: Location::root(alloc),
    }
}
