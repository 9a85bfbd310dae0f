ghost use Rattle.std.specs.Prelude.{◌≡◌, ◌<◌, map, slice_index, position, IfOk, OnOk, Some, Ok};
ghost use Rattle.sq_base.specs.Limits.{most_values};
ghost use Rattle.sq_model.specs.Valid.{count_of};
ghost use Rattle.sq_schema.specs.Properties.{has_name};
ghost use Rattle.sq_corpus.specs.Escapes.{text_of};
ghost use Rattle.sq_corpus.specs.CorpusText.{nothing_before, may_end, corpus_after};
ghost use Rattle.sq_corpus.specs.Keeps.{IsKept};
ghost use Rattle.sq_corpus.specs.Lines as spec;
ghost use Rattle.sq_corpus.specs.Reads.{Gives, Takes};

use crate::before::{Before, Stage, close, may_stand, set_allow, set_deny};
use crate::counts::{add_one, count_at};
use crate::escapes::text_of;
use crate::fault::Refusal;
use crate::names::add_name;
use crate::pieces::fields_of;
use crate::rows::{is_sound, is_taken, row_of, schema_of, schema_of_copies};
use crate::values::{are_names, content_of, copies_of, is_name, item_number, list_fault, rank_of};
use crate::words::{Flags, LineKind, flags_of, kind_of, line_kind};
use sq_base::{List, MOST_ITEMS, MOST_VALUES, Text, is_xml_text};
use sq_model::{Caller, Content, Corpus, Item, Value};
use sq_schema::{Kind, MOST_ROWS, Schema};
use std::alloc::{AllocError, Global};
use std::collections::BTreeSet;

const MOST_CALLERS: usize = 10_000;

/// Reads one line after another. After a refusal it is of no use.
#[derive(Drop)]
pub(crate) struct Reader {
    before: Before,
    /// The schema of the properties, once a value has asked for it.
    schema: Option<Schema>,
    /// The names of the callers.
    names: BTreeSet<String>,
    /// How many values of each property the item that is read has.
    counts: Vec<u32>,
}

impl Reader {
    pub(crate) fn new(alloc: Global) -> Reader
        ensures before { result.before ≡ nothing_before }
        ensures kept { IsKept result }
    {
        Reader {
            before: Before {
                stage: Stage::Start,
                rows: List::new(alloc),
                callers: List::new(alloc),
                items: List::new(alloc),
                item: None,
            },
            schema: None,
            names: BTreeSet::new(alloc),
            counts: Vec::new(alloc),
        }
    }

    /// Whether no line is missing where the text ends.
    pub(crate) fn may_end(&self) -> bool
        ensures { result ≡ may_end self.now.before.stage }
    {
        matches!(
            self.before.stage,
            Stage::InProperties | Stage::InCallers | Stage::InValues
        )
    }

    /// The corpus of the lines that were read.
    pub(crate) fn into_corpus(self, alloc: Global) -> Result<Corpus, AllocError>
        requires { IsKept self }
        ensures { IfOk result (λ corpus. corpus ≡ corpus_after self.before) }
    {
        let Reader { before, schema, .. } = self;
        let mut before = before;
        close(&mut before)?;
        let Before {
            rows,
            callers,
            items,
            ..
        } = before;
        let schema = match schema {
            Some(schema) => schema,
            None => schema_of(alloc, rows.into_vec())?,
        };
        Ok(Corpus {
            schema,
            callers,
            items,
        })
    }

    /// The row of that name.
    fn position_of(&mut self, alloc: Global, name: &str) -> Result<Option<u32>, AllocError>
        requires { IsKept self.old }
        ensures value { IfOk result (λ at. at ≡ position (has_name name.now) self.old.before.rows) }
        ensures same { self.new.before ≡ self.old.before }
        ensures kept { IsKept self.new }
    {
        if let Some(schema) = &self.schema {
            return Ok(schema.find(name));
        }
        let schema = schema_of_copies(alloc, self.before.rows.as_slice())?;
        let at = schema.find(name);
        self.schema = Some(schema);
        Ok(at)
    }

    #[tactic(auto, unfolding(crate::specs::Lines::with_row))]
    fn take_row(
        &mut self,
        alloc: Global,
        name: &str,
        kind: Kind,
        flags: Flags,
    ) -> Result<(), Refusal>
        requires { IsKept self.old }
        ensures takes { Takes (spec.with_row self.old.before (spec.row_of name.now kind flags)) self.new.before result }
        ensures kept { OnOk result (IsKept self.new) }
    {
        let row = row_of(alloc, name, kind, flags)?;
        let sound = is_sound(alloc, row_of(alloc, name, kind, flags)?)?;
        if !sound {
            Err(Refusal::Code(602))
        } else if is_taken(self.before.rows.as_slice(), name) {
            Err(Refusal::Code(605))
        } else if self.before.rows.len() >= MOST_ROWS {
            Err(Refusal::Code(608))
        } else {
            self.schema = None;
            self.before.rows.push(row)?;
            Ok(())
        }
    }

    #[tactic(auto, unfolding(crate::specs::Lines::with_property))]
    fn take_property(
        &mut self,
        alloc: Global,
        name: &str,
        kind: Option<Kind>,
        flags: Option<Flags>,
    ) -> Result<(), Refusal>
        requires { IsKept self.old }
        ensures takes { Takes (spec.with_property self.old.before name.now kind flags) self.new.before result }
        ensures kept { OnOk result (IsKept self.new) }
    {
        match kind {
            Some(kind) => match flags {
                Some(flags) => self.take_row(alloc, name, kind, flags),
                None => Err(Refusal::Code(602)),
            },
            None => Err(Refusal::Code(602)),
        }
    }

    #[tactic(auto, unfolding(crate::specs::Lines::with_caller))]
    fn take_caller(&mut self, alloc: Global, name: &str, claims: &[&str]) -> Result<(), Refusal>
        requires { IsKept self.old }
        ensures takes { Takes (spec.with_caller self.old.before name.now (map (λ claim. claim.now) claims.now)) self.new.before result }
        ensures kept { OnOk result (IsKept self.new) }
    {
        let named = self.names.contains(name);
        let good = is_name(name) && are_names(claims);
        if named {
            Err(Refusal::Code(605))
        } else if !good {
            Err(Refusal::Code(607))
        } else if self.before.callers.len() >= MOST_CALLERS {
            Err(Refusal::Code(608))
        } else {
            let caller = Caller {
                name: Text::from_str(alloc, name)?,
                claims: copies_of(alloc, claims)?,
            };
            self.before.callers.push(caller)?;
            add_name(alloc, &mut self.names, name)?;
            self.before.stage = Stage::InCallers;
            Ok(())
        }
    }

    #[tactic(auto, unfolding(crate::specs::Lines::with_url))]
    fn take_url(&mut self, alloc: Global, number: u32, rank: i64, url: Text) -> Result<(), Refusal>
        requires { IsKept self.old }
        ensures takes { Takes (spec.with_url self.old.before number rank (Some url)) self.new.before result }
        ensures kept { OnOk result (IsKept self.new) }
    {
        close(&mut self.before)?;
        if self.before.items.len() >= MOST_ITEMS as usize {
            Err(Refusal::Code(608))
        } else {
            self.counts.clear();
            self.before.item = Some(Item {
                number,
                rank,
                url,
                allow: List::new(alloc),
                deny: List::new(alloc),
                values: List::new(alloc),
            });
            self.before.stage = Stage::BeforeAllow;
            Ok(())
        }
    }

    #[tactic(auto, unfolding(crate::specs::Lines::with_url))]
    fn take_address(
        &mut self,
        alloc: Global,
        number: u32,
        rank: i64,
        url: &str,
    ) -> Result<(), Refusal>
        requires { IsKept self.old }
        ensures takes { Takes (spec.with_url self.old.before number rank (text_of url.now)) self.new.before result }
        ensures kept { OnOk result (IsKept self.new) }
    {
        match text_of(alloc, url)? {
            Some(url) => self.take_url(alloc, number, rank, url),
            None => Err(Refusal::Code(607)),
        }
    }

    #[tactic(auto, unfolding(crate::specs::Lines::with_item))]
    fn take_item(
        &mut self,
        alloc: Global,
        number: Option<u32>,
        rank: Option<i64>,
        url: &str,
    ) -> Result<(), Refusal>
        requires { IsKept self.old }
        ensures takes { Takes (spec.with_item self.old.before number rank (text_of url.now)) self.new.before result }
        ensures kept { OnOk result (IsKept self.new) }
    {
        match number {
            Some(number) => match rank {
                Some(rank) => {
                    if self.before.is_above(number) {
                        self.take_address(alloc, number, rank, url)
                    } else {
                        Err(Refusal::Code(606))
                    }
                }
                None => Err(Refusal::Code(603)),
            },
            None => Err(Refusal::Code(603)),
        }
    }

    #[tactic(auto, unfolding(crate::specs::Lines::with_allow))]
    fn take_allow(&mut self, alloc: Global, claims: &[&str]) -> Result<(), Refusal>
        requires { IsKept self.old }
        ensures takes { Takes (spec.with_allow self.old.before (map (λ claim. claim.now) claims.now)) self.new.before result }
        ensures kept { OnOk result (IsKept self.new) }
    {
        match list_fault(claims) {
            Some(code) => Err(Refusal::Code(code)),
            None => {
                let claims = copies_of(alloc, claims)?;
                set_allow(&mut self.before, claims);
                Ok(())
            }
        }
    }

    #[tactic(auto, unfolding(crate::specs::Lines::with_deny))]
    fn take_deny(&mut self, alloc: Global, claims: &[&str]) -> Result<(), Refusal>
        requires { IsKept self.old }
        ensures takes { Takes (spec.with_deny self.old.before (map (λ claim. claim.now) claims.now)) self.new.before result }
        ensures kept { OnOk result (IsKept self.new) }
    {
        match list_fault(claims) {
            Some(code) => Err(Refusal::Code(code)),
            None => {
                let claims = copies_of(alloc, claims)?;
                set_deny(&mut self.before, claims);
                Ok(())
            }
        }
    }

    #[tactic(auto, unfolding(crate::specs::Lines::with_content))]
    fn take_content(
        &mut self,
        property: u32,
        multi: bool,
        earlier: u32,
        content: Content,
    ) -> Result<(), Refusal>
        requires kept { IsKept self.old }
        requires earlier { earlier ≡ slice_index self.old.counts.items property }
        ensures takes { Takes (spec.with_content self.old.before property multi earlier (Ok content)) self.new.before result }
        ensures kept { OnOk result (IsKept self.new) }
    {
        if !multi && earlier > 0 {
            Err(Refusal::Code(605))
        } else if earlier >= MOST_VALUES {
            Err(Refusal::Code(608))
        } else {
            self.hold(Value { property, content })
        }
    }

    fn hold(&mut self, value: Value) -> Result<(), Refusal>
        requires kept { IsKept self.old }
        requires few { slice_index self.old.counts.items value.property < most_values }
        ensures takes { Takes (Ok (spec.held self.old.before value)) self.new.before result }
        ensures kept { OnOk result (IsKept self.new) }
    {
        if let Some(item) = &mut self.before.item {
            add_one(&mut self.counts, value.property as usize)?;
            item.values.push(value)?;
        }
        Ok(())
    }

    #[tactic(auto, unfolding(crate::specs::Lines::with_content))]
    fn take_field(
        &mut self,
        alloc: Global,
        property: u32,
        kind: Kind,
        multi: bool,
        field: &str,
    ) -> Result<(), Refusal>
        requires { IsKept self.old }
        ensures takes { Takes (spec.with_content self.old.before property multi (count_of (spec.values_of self.old.before.item) property)
            (spec.content_of kind field.now)) self.new.before result }
        ensures kept { OnOk result (IsKept self.new) }
    {
        let earlier = count_at(&self.counts, property as usize);
        match content_of(alloc, kind, field) {
            Ok(content) => self.take_content(property, multi, earlier, content),
            Err(Refusal::Code(code)) => Err(Refusal::Code(refused_code(code, multi, earlier))),
            Err(Refusal::Memory) => Err(Refusal::Memory),
        }
    }

    #[tactic(auto, unfolding(crate::specs::Lines::with_value_of, crate::specs::Lines::with_value))]
    fn take_value(
        &mut self,
        alloc: Global,
        property: Option<u32>,
        field: &str,
    ) -> Result<(), Refusal>
        requires { IsKept self.old }
        ensures takes { Takes (spec.with_value self.old.before property field.now) self.new.before result }
        ensures kept { OnOk result (IsKept self.new) }
    {
        match property {
            Some(property) => match self.before.rows.as_slice().get(property as usize) {
                Some(row) => {
                    let kind = row.kind;
                    let multi = row.multi;
                    self.take_field(alloc, property, kind, multi, field)
                }
                None => Err(Refusal::Code(604)),
            },
            None => Err(Refusal::Code(604)),
        }
    }

    #[tactic(auto, unfolding(crate::specs::Lines::with_known))]
    fn take_heading(&mut self, fields: &[&str]) -> Result<(), Refusal>
        requires { IsKept self.old }
        ensures takes { Takes (spec.with_known self.old.before LineKind.Heading (map (λ field. field.now) fields.now)) self.new.before result }
        ensures kept { OnOk result (IsKept self.new) }
    {
        match fields {
            [] => {
                self.before.stage = Stage::InProperties;
                Ok(())
            }
            _ => Err(Refusal::Code(602)),
        }
    }

    #[tactic(auto, unfolding(crate::specs::Lines::with_known))]
    fn take_property_row(&mut self, alloc: Global, fields: &[&str]) -> Result<(), Refusal>
        requires { IsKept self.old }
        ensures takes { Takes (spec.with_known self.old.before LineKind.PropertyRow (map (λ field. field.now) fields.now)) self.new.before result }
        ensures kept { OnOk result (IsKept self.new) }
    {
        match fields {
            [name, kind, flags] => self.take_property(alloc, name, kind_of(kind), flags_of(flags)),
            _ => Err(Refusal::Code(602)),
        }
    }

    #[tactic(auto, unfolding(crate::specs::Lines::with_known))]
    fn take_caller_row(&mut self, alloc: Global, fields: &[&str]) -> Result<(), Refusal>
        requires { IsKept self.old }
        ensures takes { Takes (spec.with_known self.old.before LineKind.CallerRow (map (λ field. field.now) fields.now)) self.new.before result }
        ensures kept { OnOk result (IsKept self.new) }
    {
        match fields {
            [name, claims @ ..] => self.take_caller(alloc, name, claims),
            [] => Err(Refusal::Code(602)),
        }
    }

    #[tactic(auto, unfolding(crate::specs::Lines::with_known))]
    fn take_item_head(&mut self, alloc: Global, fields: &[&str]) -> Result<(), Refusal>
        requires { IsKept self.old }
        ensures takes { Takes (spec.with_known self.old.before LineKind.ItemHead (map (λ field. field.now) fields.now)) self.new.before result }
        ensures kept { OnOk result (IsKept self.new) }
    {
        match fields {
            [number, rank, url] => self.take_item(alloc, item_number(number), rank_of(rank), url),
            _ => Err(Refusal::Code(602)),
        }
    }

    #[tactic(auto, unfolding(crate::specs::Lines::with_known))]
    fn take_value_row(&mut self, alloc: Global, fields: &[&str]) -> Result<(), Refusal>
        requires { IsKept self.old }
        ensures takes { Takes (spec.with_known self.old.before LineKind.ValueRow (map (λ field. field.now) fields.now)) self.new.before result }
        ensures kept { OnOk result (IsKept self.new) }
    {
        match fields {
            [name, field] => {
                let property = self.position_of(alloc, name)?;
                self.take_value(alloc, property, field)
            }
            _ => Err(Refusal::Code(602)),
        }
    }

    #[tactic(auto, unfolding(crate::specs::Lines::with_known))]
    fn take_known(&mut self, alloc: Global, kind: LineKind, fields: &[&str]) -> Result<(), Refusal>
        requires { IsKept self.old }
        ensures takes { Takes (spec.with_known self.old.before kind (map (λ field. field.now) fields.now)) self.new.before result }
        ensures kept { OnOk result (IsKept self.new) }
    {
        match kind {
            LineKind::Heading => self.take_heading(fields),
            LineKind::PropertyRow => self.take_property_row(alloc, fields),
            LineKind::CallerRow => self.take_caller_row(alloc, fields),
            LineKind::ItemHead => self.take_item_head(alloc, fields),
            LineKind::AllowList => self.take_allow(alloc, fields),
            LineKind::DenyList => self.take_deny(alloc, fields),
            LineKind::ValueRow => self.take_value_row(alloc, fields),
            LineKind::Unknown => Err(Refusal::Code(602)),
        }
    }

    #[tactic(auto, unfolding(crate::specs::Lines::with_fields))]
    fn take_fields(&mut self, alloc: Global, fields: &[&str]) -> Result<(), Refusal>
        requires { IsKept self.old }
        ensures takes { Takes (spec.with_fields self.old.before (map (λ field. field.now) fields.now)) self.new.before result }
        ensures kept { OnOk result (IsKept self.new) }
    {
        match fields {
            [word, rest @ ..] => {
                let kind = line_kind(word);
                if may_stand(self.before.stage, kind) {
                    self.take_known(alloc, kind, rest)
                } else {
                    Err(Refusal::Code(602))
                }
            }
            [] => Err(Refusal::Code(602)),
        }
    }

    fn take_unclean(&mut self, alloc: Global, fields: &[&str]) -> Result<(), Refusal>
        requires { IsKept self.old }
        ensures takes { Takes (spec.at_most_607 (spec.with_fields self.old.before (map (λ field. field.now) fields.now))) self.new.before result }
        ensures kept { OnOk result (IsKept self.new) }
    {
        match self.take_fields(alloc, fields) {
            Ok(()) => Err(Refusal::Code(607)),
            Err(Refusal::Code(code)) => Err(Refusal::Code(code.min(607))),
            Err(Refusal::Memory) => Err(Refusal::Memory),
        }
    }

    fn take_text(&mut self, alloc: Global, line: &str) -> Result<(), Refusal>
        requires { IsKept self.old }
        ensures takes { Takes (spec.with_text self.old.before line.now) self.new.before result }
        ensures kept { OnOk result (IsKept self.new) }
    {
        let fields = fields_of(alloc, line)?;
        if is_xml_text(line) {
            self.take_fields(alloc, fields.as_slice())
        } else {
            self.take_unclean(alloc, fields.as_slice())
        }
    }

    /// Takes the next line, or refuses it with its lowest code.
    #[tactic(auto, unfolding(crate::specs::Lines::with_line))]
    pub(crate) fn take_line(&mut self, alloc: Global, line: &[u8]) -> Result<(), Refusal>
        requires { IsKept self.old }
        ensures takes { Takes (spec.with_line self.old.before line.now) self.new.before result }
        ensures kept { OnOk result (IsKept self.new) }
    {
        match str::from_utf8(line) {
            Ok(text) => self.take_text(alloc, text),
            Err(_) => Err(Refusal::Code(601)),
        }
    }
}

#[tactic(auto, unfolding(crate::specs::Lines::refused_content))]
fn refused_code(code: u16, multi: bool, earlier: u32) -> u16
    ensures { result ≡ spec.refused_content multi earlier code }
{
    if !multi && earlier > 0 {
        code.min(605)
    } else {
        code
    }
}
