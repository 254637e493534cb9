//! What the schemas of a document say.

ghost use Rattle.std.specs.Prelude.{◌≡◌, ◌<◌, ◌++◌, ◌∷◌, ℕ, List, IfOk, OnOk, Some, [], option_map, unwrap_or};
ghost use Rattle.serde_json.specs.Data.{Data, member as member_of, no_members, number, object as object_of, unsigned};
ghost use Rattle.serde_json.specs.Find.{as_object};
ghost use Rattle.serde_json.specs.View.{members_view, view};
ghost use Rattle.strkw_keywords.specs.Handed.{lists_of};
ghost use Rattle.strkw_keywords.specs.Keywords.{keyword_name};
ghost use Rattle.strkw_keywords.specs.Meanings.{Lists};
ghost use Rattle.strkw_keywords.specs.Values.{AreValuesOf};
ghost use Rattle.neldrafi_schema.specs.Drafts.{known_named};
ghost use Rattle.neldrafi_schema.specs.Documents.{value_in};
ghost use Rattle.neldrafi_schema.specs.Headers.{header_at};
ghost use Rattle.neldrafi_schema.specs.Paths.{Path, key};
ghost use Rattle.neldrafi_schema.specs.References.{schema_referred};
ghost use Rattle.neldrafi_schema.specs.Scopes.{ScopedPath};
ghost use Rattle.neldrafi_schema.specs.Values.{reference_sense};
ghost use Rattle.neldrafi_schema.specs.Reading.{BodySays, KnownSays, PatternPropertiesSay, PatternsAre, SenseSays, TextSays, handed};
ghost use Rattle.neldrafi_schema.specs.Settings.{config_settings, keyword_settings};
ghost use Rattle.neldrafi_schema.specs.machine.Compiled.{header_of, path_of};
ghost use Rattle.neldrafi_schema.specs.machine.Identifiers.{IsLibraryOf};
ghost use Rattle.neldrafi_schema.specs.machine.Leads.{AreLeads, IsThere, boolean_of};
ghost use Rattle.neldrafi_schema.specs.machine.Places.{documents_of, Grown, IsTable, scope_of, scoped_paths};
ghost use Rattle.neldrafi_schema.specs.machine.Said.{Always, ArePatternsReady, IsReadReady, IsSaidReady, IsSenseReady, Reads, is_out_of_memory, patterns_of, read_keywords, said_keywords, sense_of};

use crate::branches::branches_of;
use crate::config::Config;
use crate::known::{Known, is_draft_4};
use crate::leads::member_leads;
use crate::node::{Body, Keyword, Node, Rule, Ruled};
use crate::numbers::size_in;
use crate::places::{Places, location_of, path_below};
use crate::problem::Problem;
use crate::references::Library;
use crate::refusal::SchemaErrorKind;
use crate::segment::{Segment, Step};
use crate::senses::{Member, Sense, reference_sense, sense_of};
use serde_json::{Map, Value};
use std::alloc::{AllocError, Global};
use strkw_keywords::laws::compiled_is_in_use;
use strkw_keywords::{Keyword as TextKeyword, Validator, Values, compile_among};
use strkw_pattern::EngineBuilder;
use strkw_report::{CompileError, CompileErrorKind, Draft};

/// What documents are read under.
#[derive(Clone, Copy)]
pub(crate) struct Reader<'r, 'c, 'v, B> {
    pub alloc: Global,
    pub config: &'r Config<'c, B>,
    pub library: &'r Library<'v>,
}

// What a member of a schema object comes to.
#[derive(Drop)]
pub(crate) enum Said<E> {
    Nothing,
    Keyword(Keyword<E>),
    Malformed(SchemaErrorKind),
    // the value of this member of the value
    MalformedAt(String, SchemaErrorKind),
}

/// A pattern of `patternProperties` that is refused.
#[derive(Drop)]
struct RefusedPattern {
    pattern: String,
    refusal: CompileError,
}

// What a string keyword comes to.
type ReadText<E> = Option<Result<Validator<E>, CompileError>>;

impl<'v, B: EngineBuilder> Reader<'_, '_, 'v, B> {
    /// The schema at a path, in a scope. What has no meaning is noted, if it is the first.
    pub fn read_schema(
        &self,
        scope: &[String],
        path: &[Segment],
        value: &'v Value,
        places: &mut Places<'v>,
        first: &mut Option<Problem>,
    ) -> Result<Node<B::Engine>, AllocError>
        requires library { IsLibraryOf self.now.library.now places.old }
        requires table { IsTable places.old }
        requires there { value_in (documents_of places.old.documents) (path_of path.now)
            ≡ Some (view value.now) }
        ensures read { let s = record (config_settings B.takes B.outcome admits accepts is_encoding
            decoding self.now.config.now) { draft = self.now.library.now.draft } in
            IfOk result (λ node. Reads B.Engine.outcome s.lists (λ numbered body. BodySays numbered s
            (documents_of places.old.documents) (scope_of scope.now) (path_of path.now)
            (view value.now) body) (scope_of scope.now) (path_of path.now)
            (scoped_paths places.new.places.items) first.old first.new node.body) }
        ensures header { IfOk result (λ node. header_of node.header ≡ header_at
            self.now.library.now.draft (documents_of places.old.documents) (path_of path.now)) }
        ensures grown { OnOk result (Grown places.old places.new) }
    {
        let body = self.read_body(scope, path, value, places, first)?;
        let header = self.library.header_at(self.alloc, path, value)?;
        Ok(Node { header, body })
    }

    // What it says.
    fn read_body(
        &self,
        scope: &[String],
        path: &[Segment],
        value: &'v Value,
        places: &mut Places<'v>,
        first: &mut Option<Problem>,
    ) -> Result<Body<B::Engine>, AllocError>
        requires library { IsLibraryOf self.now.library.now places.old }
        requires table { IsTable places.old }
        requires there { value_in (documents_of places.old.documents) (path_of path.now)
            ≡ Some (view value.now) }
        ensures read { let s = record (config_settings B.takes B.outcome admits accepts is_encoding
            decoding self.now.config.now) { draft = self.now.library.now.draft } in
            IfOk result (λ body. Reads B.Engine.outcome s.lists (λ numbered said. BodySays numbered s
            (documents_of places.old.documents) (scope_of scope.now) (path_of path.now)
            (view value.now) said) (scope_of scope.now) (path_of path.now)
            (scoped_paths places.new.places.items) first.old first.new body) }
        ensures grown { OnOk result (Grown places.old places.new) }
    {
        match value.as_object() {
            Some(object) => self.read_members(scope, path, object, places, first),
            None => match boolean_of(self.library.draft, value) {
                Some(true) => Ok(Body::Always),
                Some(false) => Ok(Body::Never),
                None => {
                    Problem::note(self.alloc, path, SchemaErrorKind::WrongType, first)?;
                    Ok(Body::Always)
                }
            },
        }
    }

    // The keywords of a schema object, in the order of its members.
    fn read_members(
        &self,
        scope: &[String],
        path: &[Segment],
        object: &'v Map<String, Value>,
        places: &mut Places<'v>,
        first: &mut Option<Problem>,
    ) -> Result<Body<B::Engine>, AllocError>
        requires library { IsLibraryOf self.now.library.now places.old }
        requires table { IsTable places.old }
        requires there { value_in (documents_of places.old.documents) (path_of path.now)
            ≡ Some (object_of (members_view object.now.entries)) }
        ensures read { let s = record (config_settings B.takes B.outcome admits accepts is_encoding
            decoding self.now.config.now) { draft = self.now.library.now.draft } in
            let ms = members_view object.now.entries in
            IfOk result (λ body. Reads B.Engine.outcome s.lists (λ numbered body. BodySays numbered s
            (documents_of places.old.documents) (scope_of scope.now) (path_of path.now)
            (object_of ms) body) (scope_of scope.now) (path_of path.now)
            (scoped_paths places.new.places.items) first.old first.new body) }
        ensures grown { OnOk result (Grown places.old places.new) }
    {
        let mut keywords = Vec::new(self.alloc);
        for (name, value) in object.iter() {
            let name = name.as_str();
            let at = path_below(self.alloc, path, Step::Key(name))?;
            let member = Member {
                scope,
                path,
                object,
                name,
                at: &at,
                value,
            };
            match self.read_member(&member, places)? {
                Said::Nothing => {}
                Said::Keyword(keyword) => keywords.push(keyword)?,
                Said::Malformed(kind) => Problem::note(self.alloc, &at, kind, first)?,
                Said::MalformedAt(name, kind) => {
                    let below = path_below(self.alloc, &at, Step::Key(name.as_str()))?;
                    Problem::note(self.alloc, &below, kind, first)?;
                }
            }
        }
        Ok(Body::Keywords(keywords))
    }

    // What one member comes to.
    fn read_member(
        &self,
        member: &Member<'_, 'v>,
        places: &mut Places<'v>,
    ) -> Result<Said<B::Engine>, AllocError>
        requires library { IsLibraryOf self.now.library.now places.old }
        requires table { IsTable places.old }
        requires at { path_of member.now.at.now
            ≡ path_of member.now.path.now ++ key member.now.name.now ∷ [] }
        requires there { IsThere (documents_of places.old.documents) member.now }
        ensures says { let s = record (config_settings B.takes B.outcome admits accepts is_encoding
            decoding self.now.config.now) { draft = self.now.library.now.draft } in
            let ms = members_view member.now.object.now.entries in
            let scope = scope_of member.now.scope.now in
            IfOk result (λ said. Always (scoped_paths places.new.places.items) scope (λ numbered.
            KnownSays numbered s (documents_of places.old.documents) scope
            (path_of member.now.path.now) ms member.now.name.now
            (known_named s.draft ms member.now.name.now) (view member.now.value.now)
            (said_keywords B.Engine.outcome member.now.name.now said))) }
        ensures ready { IfOk result (IsSaidReady B.Engine.outcome
            (lists_of admits accepts is_encoding decoding self.now.config.now.checks)
            (scoped_paths places.new.places.items)) }
        ensures grown { OnOk result (Grown places.old places.new) }
    {
        match Known::among(self.library.draft, member.object, member.name) {
            Known::Text(keyword) => self.read_text(member, keyword),
            Known::PatternProperties => self.read_patterns(member, places),
            Known::Reference => self.read_reference(&[], member, places),
            Known::DynamicReference | Known::RecursiveReference => {
                self.read_reference(member.scope, member, places)
            }
            known => {
                let sense = sense_of(self.alloc, self.library.draft, member, known)?;
                self.numbered(member, sense, places)
            }
        }
    }

    // A reference, which is resolved in this scope.
    fn read_reference(
        &self,
        scope: &[String],
        member: &Member<'_, 'v>,
        places: &mut Places<'v>,
    ) -> Result<Said<B::Engine>, AllocError>
        requires library { IsLibraryOf self.now.library.now places.old }
        requires table { IsTable places.old }
        ensures says { let referred = schema_referred self.now.library.now.draft
            (documents_of places.old.documents) (scope_of scope.now) (path_of member.now.path.now) in
            IfOk result (λ said. Always (scoped_paths places.new.places.items)
            (scope_of member.now.scope.now) (λ numbered. SenseSays numbered member.now.name.now
            (reference_sense referred (view member.now.value.now))
            (said_keywords B.Engine.outcome member.now.name.now said))) }
        ensures ready { (lists : Lists) → IfOk result (IsSaidReady B.Engine.outcome lists
            (scoped_paths places.new.places.items)) }
        ensures grown { OnOk result (Grown places.old places.new) }
    {
        let sense = reference_sense(self.alloc, self.library, scope, member.path, member.value)?;
        self.numbered(member, sense, places)
    }

    // A sense of a member, with its schemas by number.
    fn numbered(
        &self,
        member: &Member<'_, 'v>,
        sense: Sense<'v, B::Engine>,
        places: &mut Places<'v>,
    ) -> Result<Said<B::Engine>, AllocError>
        requires table { IsTable places.old }
        requires leads { AreLeads (documents_of places.old.documents) sense }
        ensures says { IfOk result (λ said. Always (scoped_paths places.new.places.items)
            (scope_of member.now.scope.now) (λ numbered. SenseSays numbered member.now.name.now
            (sense_of B.Engine.outcome sense.entry)
            (said_keywords B.Engine.outcome member.now.name.now said))) }
        ensures ready { (lists : Lists) → IsSenseReady B.Engine.outcome lists sense.entry
            → IfOk result (IsSaidReady B.Engine.outcome lists
            (scoped_paths places.new.places.items)) }
        ensures grown { OnOk result (Grown places.old places.new) }
    {
        match sense {
            Sense::Nothing => Ok(Said::Nothing),
            Sense::Refused(kind) => Ok(Said::Malformed(kind)),
            Sense::Says(rule, leads) => {
                let branches = branches_of(self.alloc, member.scope, leads, places)?;
                Ok(Said::Keyword(Keyword::Rule(Ruled {
                    name: String::from_str(self.alloc, member.name)?,
                    rule,
                    branches,
                })))
            }
        }
    }

    // `patternProperties`: the first pattern that is refused, or all.
    fn read_patterns(
        &self,
        member: &Member<'_, 'v>,
        places: &mut Places<'v>,
    ) -> Result<Said<B::Engine>, AllocError>
        requires table { IsTable places.old }
        requires at { path_of member.now.at.now
            ≡ path_of member.now.path.now ++ key member.now.name.now ∷ [] }
        requires there { IsThere (documents_of places.old.documents) member.now }
        ensures says { let s = record (config_settings B.takes B.outcome admits accepts is_encoding
            decoding self.now.config.now) { draft = self.now.library.now.draft } in
            IfOk result (λ said. Always (scoped_paths places.new.places.items)
            (scope_of member.now.scope.now) (λ numbered. PatternPropertiesSay numbered s
            (path_of member.now.path.now) member.now.name.now (as_object (view member.now.value.now))
            (said_keywords B.Engine.outcome member.now.name.now said))) }
        ensures ready { IfOk result (IsSaidReady B.Engine.outcome
            (lists_of admits accepts is_encoding decoding self.now.config.now.checks)
            (scoped_paths places.new.places.items)) }
        ensures grown { OnOk result (Grown places.old places.new) }
    {
        let Some(members) = member.value.as_object() else {
            return Ok(Said::Malformed(SchemaErrorKind::WrongType));
        };
        match self.patterns_of(member.path, members)? {
            Ok(patterns) => {
                let leads = member_leads(self.alloc, member.at, members)?;
                let sense = Sense::Says(Rule::Matching(patterns), leads);
                self.numbered(member, sense, places)
            }
            Err(RefusedPattern { pattern, refusal }) => {
                Ok(Said::MalformedAt(pattern, SchemaErrorKind::Text(refusal)))
            }
        }
    }

    // The patterns of members of the schema object at a path, each compiled alone.
    fn patterns_of(
        &self,
        path: &[Segment],
        members: &Map<String, Value>,
    ) -> Result<Result<Vec<Validator<B::Engine>>, RefusedPattern>, AllocError>
        ensures are { let s = record (config_settings B.takes B.outcome admits accepts is_encoding
            decoding self.now.config.now) { draft = self.now.library.now.draft } in
            (name : List ℕ) → IfOk result (λ r. PatternsAre s (path_of path.now) name
            (members_view members.now.entries) (patterns_of B.Engine.outcome name r)) }
        ensures ready { IfOk result (ArePatternsReady B.Engine.outcome
            (lists_of admits accepts is_encoding decoding self.now.config.now.checks)) }
    {
        let mut patterns = Vec::new(self.alloc);
        for (name, _) in members.iter() {
            let value = Value::try_from_str(self.alloc, name.as_str())?;
            match self.compiled(path, &value, TextKeyword::Pattern)? {
                None => {}
                Some(Ok(validator)) => patterns.push(validator)?,
                Some(Err(refusal)) => {
                    let pattern = name.clone()?;
                    return Ok(Err(RefusedPattern { pattern, refusal }));
                }
            }
        }
        Ok(Ok(patterns))
    }

    // A string keyword, as it is compiled alone.
    fn read_text(
        &self,
        member: &Member<'_, 'v>,
        keyword: TextKeyword,
    ) -> Result<Said<B::Engine>, AllocError>
        ensures says { let s = record (config_settings B.takes B.outcome admits accepts is_encoding
            decoding self.now.config.now) { draft = self.now.library.now.draft } in
            IfOk result (λ said. TextSays
            (keyword_settings s (path_of member.now.path.now) keyword)
            (key member.now.name.now ∷ []) keyword (view member.now.value.now)
            (said_keywords B.Engine.outcome member.now.name.now said)) }
        ensures ready { (paths : List ScopedPath) → IfOk result (IsSaidReady B.Engine.outcome
            (lists_of admits accepts is_encoding decoding self.now.config.now.checks) paths) }
    {
        match self.compiled_member(member, keyword)? {
            None => Ok(Said::Nothing),
            Some(Ok(validator)) => Ok(Said::Keyword(Keyword::Text(keyword, validator))),
            Some(Err(refusal)) => Ok(Said::Malformed(SchemaErrorKind::Text(refusal))),
        }
    }

    // The same, as `strkw_keywords` has it.
    fn compiled_member(
        &self,
        member: &Member<'_, 'v>,
        keyword: TextKeyword,
    ) -> Result<ReadText<B::Engine>, AllocError>
        ensures says { let s = record (config_settings B.takes B.outcome admits accepts is_encoding
            decoding self.now.config.now) { draft = self.now.library.now.draft } in
            (at : Path) → IfOk result (λ found. TextSays
            (keyword_settings s (path_of member.now.path.now) keyword) at keyword
            (view member.now.value.now) (read_keywords B.Engine.outcome at keyword found)) }
        ensures ready { IfOk result (IsReadReady B.Engine.outcome
            (lists_of admits accepts is_encoding decoding self.now.config.now.checks) keyword) }
    {
        match length_in(keyword, member.value) {
            Some(limit) => self.compiled(member.path, &Value::from(limit), keyword),
            None => self.compiled(member.path, member.value, keyword),
        }
    }

    // The keyword of the schema object at a path, which has this value.
    fn compiled(
        &self,
        path: &[Segment],
        value: &Value,
        keyword: TextKeyword,
    ) -> Result<ReadText<B::Engine>, AllocError>
        ensures says { let s = record (config_settings B.takes B.outcome admits accepts is_encoding
            decoding self.now.config.now) { draft = self.now.library.now.draft } in
            (at : Path) (d : Data) → view value.now ≡ handed keyword d
            → IfOk result (λ found. TextSays (keyword_settings s (path_of path.now) keyword) at
            keyword d (read_keywords B.Engine.outcome at keyword found)) }
        ensures ready { IfOk result (IsReadReady B.Engine.outcome
            (lists_of admits accepts is_encoding decoding self.now.config.now.checks) keyword) }
    {
        compiled_is_in_use();
        let location = location_of(self.alloc, path)?;
        let ctx = self.config.context(self.library.draft, &location, keyword)?;
        let found = compile_among(self.alloc, &ctx, &values_of(value, keyword), keyword);
        if is_out_of_memory(&found) {
            return Err(AllocError);
        }
        Ok(found)
    }
}

fn is_out_of_memory<E>(found: &ReadText<E>) -> bool
    ensures { result ≡ is_out_of_memory found.now }
{
    match found {
        Some(Err(refusal)) => matches!(refusal.kind, CompileErrorKind::Memory),
        _ => false,
    }
}

// The size that `minLength` and `maxLength` say, which may be written as a float.
fn length_in(keyword: TextKeyword, value: &Value) -> Option<u64>
    ensures { handed keyword (view value.now) ≡ unwrap_or (option_map
        (λ n. number (unsigned n)) result) (view value.now) }
{
    match keyword {
        TextKeyword::MinLength | TextKeyword::MaxLength => size_in(value),
        _ => None,
    }
}

// A boolean that is a schema.
fn boolean_of(draft: Draft, value: &Value) -> Option<bool>
    ensures { result ≡ boolean_of draft (view value.now) }
{
    if is_draft_4(draft) {
        None
    } else {
        value.as_bool()
    }
}

// The values of an object that has this keyword alone.
fn values_of(value: &Value, keyword: TextKeyword) -> Values<'_>
    ensures { AreValuesOf (member_of (keyword_name keyword) (view value.now) no_members) result }
{
    let mut values = Values {
        content_media_type: None,
        content_encoding: None,
        content_schema: None,
        format: None,
        min_length: None,
        max_length: None,
        pattern: None,
    };
    match keyword {
        TextKeyword::ContentMediaType => values.content_media_type = Some(value),
        TextKeyword::ContentEncoding => values.content_encoding = Some(value),
        TextKeyword::ContentSchema => values.content_schema = Some(value),
        TextKeyword::Format => values.format = Some(value),
        TextKeyword::MinLength => values.min_length = Some(value),
        TextKeyword::MaxLength => values.max_length = Some(value),
        TextKeyword::Pattern => values.pattern = Some(value),
    }
    values
}
