//! Which element of a plan does not fit the tables.

use crate::line_words::BadWord;
use crate::misread::Misread;
use crate::word_fault::WordFault;
use queries::limits::{AGGREGATES_MAX, CONDITIONS_MAX, GROUPS_MAX};
use queries::{
    Aggregate, AggregateList, Column, ColumnList, Condition, ConditionList, Plan, PlanFault,
};
use rows::{Schema, Value, append_number, append_value};
use std::alloc::{AllocError, Global};

/// What of a plan may not fit.
#[derive(Clone, Copy)]
enum Element {
    /// The tables, and the column of the join.
    Tables,
    Condition(Condition),
    Group(Column),
    Aggregate(Aggregate),
}

/// An element of a plan, in a plan on the same tables that has no other: what a check of that plan says is due to it.
#[derive(Drop)]
pub struct PlanElement {
    element: Element,
    plan: Plan,
}

impl PlanElement {
    /// This element of a plan. Fails only if out of memory.
    fn new(alloc: Global, whole: &Plan, element: Element) -> Result<PlanElement, AllocError> {
        let conditions = conditions_of(alloc, &element)?;
        let groups = groups_of(alloc, &element)?;
        let aggregates = aggregates_of(alloc, &element)?;
        let plan = Plan {
            table: whole.table,
            join: whole.join,
            conditions,
            groups,
            aggregates,
        };
        Ok(PlanElement { element, plan })
    }

    /// The plan that has this element alone.
    pub fn plan(&self) -> &Plan {
        &self.plan
    }

    /// The word of this element at which it does not fit, for this fault of its plan; `Unknown` if out of memory.
    pub fn misread(&self, alloc: Global, fault: PlanFault) -> Misread {
        match (fault, self.element) {
            (PlanFault::WrongKind, Element::Condition(condition)) => misread_word(
                alloc,
                value_word(alloc, &condition.value),
                WordFault::OtherKind,
            ),
            (PlanFault::WrongKind, Element::Tables) => {
                self.misread_column(alloc, WordFault::JoinOfBytes)
            }
            (PlanFault::WrongKind, _) => self.misread_column(alloc, WordFault::SumOfBytes),
            (PlanFault::NoColumn, _) => self.misread_column(alloc, WordFault::AfterLastColumn),
            (_, _) => Misread::Unknown,
        }
    }

    /// Its column, which is wrong for this reason, unless it is one of a joined table and there is none.
    fn misread_column(&self, alloc: Global, otherwise: WordFault) -> Misread {
        let Some(column) = self.column() else {
            return Misread::Unknown;
        };
        let why = match (column, self.plan.join) {
            (Column::Joined(_), None) => WordFault::NoJoin,
            (_, _) => otherwise,
        };
        misread_word(alloc, column_word(alloc, column), why)
    }

    /// Its column, if it has one.
    fn column(&self) -> Option<Column> {
        match self.element {
            Element::Tables => {
                let join = self.plan.join?;
                Some(Column::Own(join.column))
            }
            Element::Condition(condition) => Some(condition.column),
            Element::Group(column) => Some(column),
            Element::Aggregate(Aggregate::Count) => None,
            Element::Aggregate(
                Aggregate::Sum(column) | Aggregate::Min(column) | Aggregate::Max(column),
            ) => Some(column),
        }
    }
}

/// The conditions of a plan that has this element alone.
fn conditions_of(alloc: Global, element: &Element) -> Result<ConditionList, AllocError> {
    match element {
        Element::Condition(condition) => list_of(alloc, &[*condition]),
        _ => list_of(alloc, &[]),
    }
}

/// A list of these conditions.
fn list_of(alloc: Global, conditions: &[Condition]) -> Result<ConditionList, AllocError> {
    let copies = Vec::from_slice(alloc, conditions)?;
    Ok(ConditionList::from_vec(copies))
}

/// The columns by which a plan groups that has this element alone.
fn groups_of(alloc: Global, element: &Element) -> Result<ColumnList, AllocError> {
    let mut groups = Vec::new(alloc);
    if let Element::Group(column) = element {
        groups.push(*column)?;
    }
    Ok(ColumnList::from_vec(groups))
}

/// The aggregates of a plan that has this element alone, which counts as well: a plan has an aggregate at least.
fn aggregates_of(alloc: Global, element: &Element) -> Result<AggregateList, AllocError> {
    let mut aggregates = Vec::new(alloc);
    aggregates.push(Aggregate::Count)?;
    if let Element::Aggregate(aggregate) = element {
        aggregates.push(*aggregate)?;
    }
    Ok(AggregateList::from_vec(aggregates))
}

/// The elements of a plan, in the order in which a check looks at them. Fails only if out of memory.
pub fn elements_of(alloc: Global, plan: &Plan) -> Result<Vec<PlanElement>, AllocError> {
    let mut elements = Vec::new(alloc);
    elements.push(PlanElement::new(alloc, plan, Element::Tables)?)?;
    for condition in plan.conditions.as_slice() {
        let element = Element::Condition(*condition);
        elements.push(PlanElement::new(alloc, plan, element)?)?;
    }
    for column in plan.groups.as_slice() {
        let element = Element::Group(*column);
        elements.push(PlanElement::new(alloc, plan, element)?)?;
    }
    for aggregate in plan.aggregates.as_slice() {
        let element = Element::Aggregate(*aggregate);
        elements.push(PlanElement::new(alloc, plan, element)?)?;
    }
    Ok(elements)
}

/// The word at which a plan does not fit the tables of a schema; `Unknown` if it fits or if out of memory.
pub fn misread_unfit(alloc: Global, schema: &Schema, plan: &Plan) -> Misread {
    match plan.check(schema) {
        Ok(()) => Misread::Unknown,
        Err(PlanFault::TooMany) => misread_too_many(alloc, plan),
        Err(_) => match elements_of(alloc, plan) {
            Ok(elements) => misread_first(alloc, schema, elements.as_slice()),
            Err(_) => Misread::Unknown,
        },
    }
}

/// The word at which the first of these elements that does not fit the tables of a schema does not.
fn misread_first(alloc: Global, schema: &Schema, elements: &[PlanElement]) -> Misread {
    for element in elements {
        if let Err(fault) = element.plan.check(schema) {
            return element.misread(alloc, fault);
        }
    }
    Misread::Unknown
}

/// The first word of what a plan has too many of.
fn misread_too_many(alloc: Global, plan: &Plan) -> Misread {
    if let Some(condition) = plan.conditions.as_slice().get(CONDITIONS_MAX) {
        let word = column_word(alloc, condition.column);
        return misread_word(alloc, word, WordFault::NinthCondition);
    }
    if let Some(column) = plan.groups.as_slice().get(GROUPS_MAX) {
        return misread_word(alloc, column_word(alloc, *column), WordFault::ThirdGroup);
    }
    let Some(aggregate) = plan.aggregates.as_slice().get(AGGREGATES_MAX) else {
        return Misread::Unknown;
    };
    let word = match aggregate {
        Aggregate::Count => b"count".as_slice(),
        Aggregate::Sum(_) => b"sum",
        Aggregate::Min(_) => b"min",
        Aggregate::Max(_) => b"max",
    };
    let why = WordFault::NinthAggregate;
    Misread::of(alloc, Err(BadWord { word, why }))
}

/// A copy of this word, which is wrong for this reason; `Unknown` if memory was refused for it.
fn misread_word(alloc: Global, word: Result<Vec<u8>, AllocError>, why: WordFault) -> Misread {
    match word {
        Ok(word) => {
            let word = word.as_slice();
            Misread::of(alloc, Err(BadWord { word, why }))
        }
        Err(_) => Misread::Unknown,
    }
}

/// The word of a column.
fn column_word(alloc: Global, column: Column) -> Result<Vec<u8>, AllocError> {
    let mut word = Vec::new(alloc);
    match column {
        Column::Own(number) => append_number(&mut word, number)?,
        Column::Joined(number) => {
            word.push(b'j')?;
            append_number(&mut word, number)?;
        }
    }
    Ok(word)
}

/// The word of a value.
fn value_word(alloc: Global, value: &Value) -> Result<Vec<u8>, AllocError> {
    let mut word = Vec::new(alloc);
    append_value(&mut word, value)?;
    Ok(word)
}
