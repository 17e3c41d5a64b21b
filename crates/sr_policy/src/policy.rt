ghost use Rattle.std.specs.Prelude.{◌≡◌, IfOk, IfSome, All, map, option_and_then, option_map};
ghost use Rattle.sr_policy.specs.Rules.{other_class as all_others, value_at};
ghost use Rattle.sr_policy.specs.steps.Rows.{IsColumn};

use crate::live::Live;
use crate::numbers::{Numbers, found, names_of, place_of};
use crate::rates::Rates;
use crate::rows::{Column, Row, columns_of, rows_of};
use sr_bytes::{Name, Pairs};
use std::alloc::{AllocError, Global};
use std::marker::Model;

/// What an operator allows: how many entries each consumer may have pending, and how many of them without a fee, which
/// consumers may take the entries of which class, and at which rate.
///
/// Source: docs/POLICY.md.
pub struct Policy {
    class_field: Option<Name>,
    // The names in `limits`, once more, so that they can be lent as one list.
    consumers: Vec<Name>,
    limits: Numbers,
    rates: Vec<(Name, Numbers)>,
    // The same rates, those of each class in the order of the consumers, so that a snapshot finds them by place.
    rows: Vec<Rates>,
    soft: Numbers,
    fees: Numbers,
}

// A function of its own, so that a caller that lets go of one is proved without looking at its parts.
impl Drop for Policy {
    fn drop(self) {
        let Policy {
            class_field: _,
            consumers: _,
            limits: _,
            rates: _,
            rows: _,
            soft: _,
            fees: _,
        } = self;
    }
}

impl Model for Policy {
    ghost use Rattle.std.specs.Prelude.{◌≡◌, map};
    ghost use Rattle.sr_policy.specs.Policy.{IsPolicy};
    ghost use Rattle.sr_policy.specs.Rules.{Rules};
    ghost use Rattle.sr_policy.specs.steps.Rows.{rows_by};

    ghost Value = { Rules };

    ghost view = { λ p. record {
      class_field = p.class_field;
      limits = p.limits;
      rates = p.rates.items;
      soft = p.soft;
      fees = p.fees;
    } };

    ghost invariant = { λ p. (p.consumers.items ≡ map (λ limit. limit.0) p.limits)
        × (p.rows.items ≡ rows_by p.consumers.items p.rates.items)
        × IsPolicy (record {
          class_field = p.class_field;
          limits = p.limits;
          rates = p.rates.items;
          soft = p.soft;
          fees = p.fees;
        }) };
}

/// The parts of a policy, before they are one.
#[derive(Drop)]
pub(crate) struct Parts {
    pub(crate) class_field: Option<Name>,
    pub(crate) limits: Numbers,
    pub(crate) rates: Vec<(Name, Numbers)>,
    pub(crate) soft: Numbers,
    pub(crate) fees: Numbers,
}

impl Model for Parts {
    ghost use Rattle.sr_policy.specs.Rules.{Rules};

    ghost Value = { Rules };

    ghost view = { λ p. record {
      class_field = p.class_field;
      limits = p.limits;
      rates = p.rates.items;
      soft = p.soft;
      fees = p.fees;
    } };
}

impl Policy {
    ghost use Rattle.std.specs.Prelude.{◌≡◌, IfOk, IfSome, All, map, option_map};
    ghost use Rattle.sr_bytes.specs.{AreInOrder, ComesBefore};
    ghost use Rattle.sr_policy.specs.steps.Rows.{IsColumn};
    ghost use Rattle.sr_policy.specs.Policy.{IsPolicy};
    ghost use Rattle.sr_policy.specs.Rules.{no_rules, value_at, consumers_of, limit_of, live_of, rate_of};
    ghost use Rattle.sr_policy.specs.Rules.{has_tiers, tier_of};
    ghost use Rattle.sr_policy.specs.Rules.{classed_by as classed_in, class_of as class_by};

    /// The policy without consumers and rates, under which no entry can be given to anybody. It takes no memory.
    pub fn empty(alloc: Global) -> Policy
        ensures { result ≡ no_rules }
    {
        Policy {
            class_field: None,
            consumers: Vec::new(alloc),
            limits: Numbers::none(alloc),
            rates: Vec::new(alloc),
            rows: Vec::new(alloc),
            soft: Numbers::none(alloc),
            fees: Numbers::none(alloc),
        }
    }

    /// The policy of these parts.
    pub(crate) fn of(alloc: Global, parts: Parts) -> Result<Policy, AllocError>
        requires { IsPolicy parts }
        ensures { IfOk result (λ policy. policy ≡ parts) }
    {
        let Parts {
            class_field,
            limits,
            rates,
            soft,
            fees,
        } = parts;
        let consumers = names_of(alloc, limits.as_slice())?;
        let rows = rows_of(alloc, consumers.as_slice(), rates.as_slice())?;
        Ok(Policy {
            class_field,
            consumers,
            limits,
            rates,
            rows,
            soft,
            fees,
        })
    }

    /// Law: consumers and classes are in order, no list is too long, no number too great, and no soft limit above its
    /// limit. Calling this has no effect.
    pub fn sound(&self)
        ensures { IsPolicy self.now }
    {
        let _ = &self.rates;
    }

    /// The consumers, in byte order.
    pub fn consumers(&self) -> &[Name]
        ensures value { result.now ≡ consumers_of self.now }
        ensures order { AreInOrder ComesBefore result.now }
    {
        self.consumers.as_slice()
    }

    /// How many entries a consumer may have pending, or `None` if the policy doesn't name it.
    pub fn limit(&self, consumer: &Name) -> Option<u64>
        ensures { result ≡ limit_of self.now consumer.now }
    {
        self.limits.get(consumer)
    }

    /// A consumer as a live one, with this many entries pending for it, or `None` if the policy doesn't name it.
    pub fn live(
        &self,
        alloc: Global,
        consumer: &Name,
        pending: u64,
    ) -> Result<Option<Live>, AllocError>
        ensures { IfOk result (λ live. live ≡ live_of self.now consumer.now pending) }
    {
        let Some(limit) = self.limit(consumer) else {
            return Ok(None);
        };
        let name = consumer.copy(alloc)?;
        Ok(Some(Live {
            name,
            limit,
            pending,
            tier: self.tier(consumer),
        }))
    }

    /// A consumer's soft limit and the fee of each entry beyond it, or `None` if it has no soft limit. It takes no
    /// memory.
    pub fn tier(&self, consumer: &Name) -> Option<(u64, u64)>
        ensures { result ≡ tier_of self.now consumer.now }
    {
        let soft = self.soft.get(consumer)?;
        let fee = self.fees.get(consumer)?;
        Some((soft, fee))
    }

    /// Whether some consumer has a soft limit. It takes no memory.
    pub fn has_tiers(&self) -> bool
        ensures { result ≡ has_tiers self.now }
    {
        self.consumers
            .iter()
            .any(|consumer| self.tier(consumer).is_some())
    }

    /// What an entry of a class costs at a consumer for each unit of its weight, or `None` if the consumer may not take
    /// it.
    pub fn rate(&self, class: &Name, consumer: &Name) -> Option<u64>
        ensures { result ≡ rate_of self.now class.now consumer.now }
    {
        rate_in(self.rates_for(class), consumer)
    }

    /// For each of these classes the rate of each of the consumers, in their order, `None` for one that may not take
    /// it.
    pub fn rates_of(
        &self,
        alloc: Global,
        classes: Vec<Name>,
        live: &[Live],
    ) -> Result<Vec<(Name, Rates)>, AllocError>
        ensures { IfOk result (λ list. list.items ≡ map (λ class.
            (class, map (λ consumer. rate_of self.now class consumer.name) live.now)) classes.items) }
    {
        let columns = columns_of(alloc, self.consumers(), live)?;
        let mut list = Vec::with_capacity(alloc, classes.len())?;
        for class in classes {
            let rates = self.rates_at(alloc, &class, columns.as_slice())?;
            list.push((class, rates))?;
        }
        Ok(list)
    }

    /// For a class the rate of the consumer of each of these columns.
    fn rates_at(
        &self,
        alloc: Global,
        class: &Name,
        columns: &[Column<'_>],
    ) -> Result<Rates, AllocError>
        requires { All (IsColumn (consumers_of self.now)) columns.now }
        ensures { IfOk result (λ rates. rates
            ≡ map (λ column. rate_of self.now class.now column.consumer.now) columns.now) }
    {
        rates_in(alloc, self.row_for(class), columns)
    }

    /// The class of an entry with these fields.
    pub fn class_of(&self, alloc: Global, fields: Pairs<'_>) -> Result<Name, AllocError>
        ensures { IfOk result (λ class. class ≡ class_by self.now fields.entry) }
    {
        let Some(value) = self.classed_by(fields) else {
            return other_class(alloc);
        };
        let class = Name::new(Vec::from_slice(alloc, value)?);
        if self.rates_for(&class).is_some() {
            Ok(class)
        } else {
            other_class(alloc)
        }
    }

    /// The rates of a class, by consumer.
    fn rates_for(&self, class: &Name) -> Option<&Numbers>
        ensures { option_map (λ rates. rates.now) result ≡ value_at class.now self.now.rates }
    {
        found(self.rates.as_slice(), class)
    }

    /// The rates of a class, by consumer, where its row lies.
    fn row_for(&self, class: &Name) -> Option<Row<'_>>
        ensures rates { option_map (λ row. row.rates) result ≡ value_at class.now self.now.rates }
        ensures consumers { IfSome result (λ row. row.consumers ≡ consumers_of self.now) }
    {
        let place = place_of(self.rates.as_slice(), class)?;
        let rates = &self.rates[place].1;
        let row = self.rows[place].as_slice();
        Some(Row::new(self.consumers.as_slice(), row, rates))
    }

    /// The value of the first field with the name of the class field.
    fn classed_by<'a>(&self, fields: Pairs<'a>) -> Option<&'a [u8]>
        ensures { option_map (λ value. value.now) result ≡ classed_in self.now fields.entry }
    {
        match &self.class_field {
            Some(field) => first_value(fields, field),
            None => None,
        }
    }
}

/// The rate of a consumer among those of a class, if the class has rates.
fn rate_in(row: Option<&Numbers>, consumer: &Name) -> Option<u64>
    ensures { result ≡ option_and_then (value_at consumer.now) (option_map (λ rates. rates.now) row.entry) }
{
    match row {
        Some(rates) => rates.get(consumer),
        None => None,
    }
}

/// The rate of the consumer of each of these columns among those of a class, if the class has rates.
fn rates_in(
    alloc: Global,
    row: Option<Row<'_>>,
    columns: &[Column<'_>],
) -> Result<Rates, AllocError>
    requires { IfSome row (λ row. All (IsColumn row.consumers) columns.now) }
    ensures { IfOk result (λ rates. rates ≡ map (λ column.
        option_and_then (value_at column.consumer.now) (option_map (λ row. row.rates) row.entry)) columns.now) }
{
    let mut rates = Vec::with_capacity(alloc, columns.len())?;
    for column in columns {
        rates.push(rate_at(&row, column))?;
    }
    Ok(Rates::new(rates))
}

/// The rate of the consumer of this column in the same way.
fn rate_at(row: &Option<Row<'_>>, column: &Column<'_>) -> Option<u64>
    requires { IfSome row.now (λ row. IsColumn row.consumers column.now) }
    ensures { result ≡ option_and_then (value_at column.now.consumer.now) (option_map (λ row. row.rates) row.now) }
{
    match row {
        Some(row) => row.at(column),
        None => None,
    }
}

/// The value of the first pair with this field.
fn first_value<'a>(mut pairs: Pairs<'a>, field: &Name) -> Option<&'a [u8]>
    ensures { option_map (λ value. value.now) result ≡ value_at field.now pairs.entry }
{
    while let Some((name, value)) = pairs.next() {
        if field.as_slice() == name {
            return Some(value);
        }
    }
    None
}

/// The class of all entries that no other class takes.
fn other_class(alloc: Global) -> Result<Name, AllocError>
    ensures { IfOk result (λ class. class ≡ all_others) }
{
    Ok(Name::new(Vec::from_slice(alloc, b"*")?))
}
