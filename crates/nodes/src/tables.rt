//! The tables of a replica as they are now.

ghost use Rattle.std.specs.Prelude.{◌≡◌, length, map, IfOk, IfSome};
ghost use Rattle.std.specs.List.{zip};
ghost use Rattle.rows.specs.Shape.{given};
ghost use Rattle.rows.specs.Tables.{shape_in};
ghost use Rattle.dispatcher.specs.TableText.{names_of};

use dispatcher::ReplicaCore;
use gathering::Tables;
use rows::{Kind, Schema};
use std::alloc::{AllocError, Global};
use std::marker::Sync;
use store::ApplyStore;

/// The tables of a replica at its version, which have the names of a schema: with the columns that were added. `None` if out of memory,
/// or if the replica is broken.
pub fn tables_of<S: ApplyStore + Sync>(
    alloc: Global,
    schema: &Schema,
    replica: &ReplicaCore<S>,
) -> Option<Tables>
    ensures version { IfSome result (λ tables. tables.version ≡ replica.now.version) }
    ensures tables { IfSome result (λ tables. tables.schema ≡ zip (names_of schema.now) (shape_in replica.now.tables)) }
{
    let Ok(parts) = parts_of(alloc, schema, replica) else {
        return None;
    };
    match Schema::new(alloc, parts.as_slice()) {
        Ok(schema) => Some(Tables {
            version: replica.version(),
            schema,
        }),
        Err(_) => None,
    }
}

/// The name of each table, and the kinds of its columns. Fails only if out of memory.
fn parts_of<'a, S: ApplyStore + Sync>(
    alloc: Global,
    schema: &'a Schema,
    replica: &'a ReplicaCore<S>,
) -> Result<Vec<(&'a str, &'a [Kind])>, AllocError>
    ensures { IfOk result (λ parts. map given parts.items ≡ zip (names_of schema.now) (shape_in replica.now.tables)) }
{
    let mut parts = Vec::new(alloc);
    for table in 0..table_count(schema) {
        let Some(name) = schema.name(table as usize) else {
            return Ok(parts);
        };
        let Some(kinds) = replica.kinds(table) else {
            return Ok(parts);
        };
        parts.push((name, kinds))?;
    }
    Ok(parts)
}

/// How many tables a schema has.
fn table_count(schema: &Schema) -> u8
    ensures { result ≡ length schema.now }
{
    schema.keeps_limits();
    schema.len() as u8
}
