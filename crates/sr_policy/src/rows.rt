ghost use Rattle.std.specs.Prelude.{◌≡◌, IfOk, All, map};
ghost use Rattle.sr_policy.specs.steps.Rows.{IsColumn, row_by, rows_by};

use crate::live::Live;
use crate::numbers::Numbers;
use crate::rates::Rates;
use sr_bytes::Name;
use std::alloc::{AllocError, Global};
use std::marker::Model;

/// A consumer, with its place among those of a policy, at which its rates are found.
#[derive(Drop)]
pub(crate) struct Column<'a> {
    consumer: &'a Name,
    place: Option<usize>,
}

/// The columns of these consumers, found once for the rows of all classes. If they come in byte order each takes one
/// comparison for each of the policy's consumers between.
pub(crate) fn columns_of<'a>(
    alloc: Global,
    consumers: &[Name],
    live: &'a [Live],
) -> Result<Vec<Column<'a>>, AllocError>
    ensures names { IfOk result (λ columns. map (λ column. column.consumer.now) columns.items
        ≡ map (λ consumer. consumer.name) live.now) }
    ensures places { IfOk result (λ columns. All (IsColumn consumers.now) columns.items) }
{
    let mut columns = Vec::with_capacity(alloc, live.len())?;
    let mut near = 0;
    for one in live {
        let column = column_of(consumers, near, &one.name);
        if let Some(place) = column.place {
            near = place.saturating_add(1);
        }
        columns.push(column)?;
    }
    Ok(columns)
}

/// The rates of a class, once in the order of the policy's consumers, and once by name.
#[derive(Drop)]
pub(crate) struct Row<'a> {
    consumers: &'a [Name],
    // The rate of each consumer.
    row: &'a [Option<u64>],
    rates: &'a Numbers,
}

impl<'a> Model for Row<'a> {
    ghost use Rattle.std.specs.Prelude.{◌≡◌};
    ghost use Rattle.sr_policy.specs.steps.Rows.{RowState, row_by};

    ghost Value = { RowState };

    ghost view = { λ r. record { consumers = r.consumers.now; rates = r.rates.now } };

    ghost invariant = { λ r. r.row.now ≡ row_by r.consumers.now r.rates.now };
}

impl<'a> Row<'a> {
    ghost use Rattle.std.specs.Prelude.{◌≡◌};
    ghost use Rattle.sr_policy.specs.Rules.{value_at};
    ghost use Rattle.sr_policy.specs.steps.Rows.{IsColumn, row_by};

    /// The row of a class with these rates.
    pub(crate) fn new(consumers: &'a [Name], row: &'a [Option<u64>], rates: &'a Numbers) -> Row<'a>
        requires { row.now ≡ row_by consumers.now rates.now }
        ensures { result ≡ record { consumers = consumers.now; rates = rates.now } }
    {
        Row {
            consumers,
            row,
            rates,
        }
    }

    /// The rate of the consumer of this column.
    pub(crate) fn at(&self, column: &Column<'_>) -> Option<u64>
        requires { IsColumn self.now.consumers column.now }
        ensures { result ≡ value_at column.now.consumer.now self.now.rates }
    {
        match column.place {
            Some(place) => self.row[place],
            None => self.rates.get(column.consumer),
        }
    }
}

/// The column of the consumer, which is looked for from this place on.
fn column_of<'a>(consumers: &[Name], near: usize, consumer: &'a Name) -> Column<'a>
    ensures name { result.consumer.now ≡ consumer.now }
    ensures place { IsColumn consumers.now result }
{
    for place in near..consumers.len() {
        if consumers[place] == *consumer {
            return Column {
                consumer,
                place: Some(place),
            };
        }
    }
    Column {
        consumer,
        place: None,
    }
}

/// For each class the rates of the consumers, in their order.
pub(crate) fn rows_of(
    alloc: Global,
    consumers: &[Name],
    classes: &[(Name, Numbers)],
) -> Result<Vec<Rates>, AllocError>
    ensures { IfOk result (λ rows. rows.items ≡ rows_by consumers.now classes.now) }
{
    let mut rows = Vec::with_capacity(alloc, classes.len())?;
    for (_, rates) in classes {
        rows.push(row_of(alloc, consumers, rates)?)?;
    }
    Ok(rows)
}

/// The rates of the consumers for a class, in their order.
fn row_of(alloc: Global, consumers: &[Name], rates: &Numbers) -> Result<Rates, AllocError>
    ensures { IfOk result (λ row. row ≡ row_by consumers.now rates.now) }
{
    let mut row = Vec::with_capacity(alloc, consumers.len())?;
    for consumer in consumers {
        row.push(rates.get(consumer))?;
    }
    Ok(Rates::new(row))
}
