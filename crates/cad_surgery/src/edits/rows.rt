//! Edits of rows alone: made, taken back and made again among the rows.
ghost use Rattle.std.specs.Prelude.{◌≡◌, None, IsTrue, IsOk, IfOk, OnOk, OnErr};
ghost use Rattle.geo_exact.specs.Position.{OnTheMap};
ghost use Rattle.cad_map.specs.Effects.{after};
ghost use Rattle.cad_map.specs.Map.{Map};
ghost use Rattle.cad_map.specs.Refusals.{range, unknown, taken, not_attached};
ghost use Rattle.edit_records.specs.Record.{edit_of, Holds, IsMadeOf, IsPlaced};
ghost use Rattle.cad_surgery.specs.RowEdits.{is_of_rows, without_rings};
ghost use Rattle.cad_map.specs.MapRows.{map_in};

use cad_map::MapRows;
use cad_rows::{Edit, Memory, SourceRow};
use edit_records::SmallRecord;
use geo_exact::Pt;
use map_parts::{
    add_point, add_source, attach, attach_at, detach, move_point, put_point_back, rename,
    take_point, take_source,
};

// The position with coordinates that are in range.
fn at(x: i64, y: i64) -> Pt
    requires { OnTheMap (record { x = x; y = y }) }
    ensures { result ≡ record { x = x; y = y } }
{
    Pt::new(x, y).unwrap()
}

/// Makes an edit of rows alone, and gives its record. Where memory runs out the rows stay.
#[tactic(auto, unfolding(cad_map::specs::Effects::after))]
pub(crate) fn make(rows: &mut MapRows, edit: &Edit) -> Result<SmallRecord, Memory>
    requires alone { IsTrue (is_of_rows edit.now) }
    requires range { range edit.now ≡ None }
    requires unknown { unknown (map_in rows.old) edit.now ≡ None }
    requires taken { taken (map_in rows.old) edit.now ≡ None }
    requires attached { not_attached (map_in rows.old) edit.now ≡ None }
    ensures ok { OnOk result (map_in rows.new ≡ after (map_in rows.old) edit.now) }
    ensures err { OnErr result (map_in rows.new ≡ map_in rows.old) }
    ensures edit { IfOk result (λ r. edit_of r ≡ edit.now) }
    ensures holds { IfOk result (λ r. Holds r (map_in rows.old)) }
{
    match edit {
        Edit::AddSource { source, text } => {
            let row = SourceRow {
                number: *source,
                text: text.copy()?,
            };
            add_source(rows, row.copy()?)?;
            Ok(SmallRecord::AddSource { row })
        }
        Edit::AddPoint { point, x, y } => {
            let position = at(*x, *y);
            add_point(rows, *point, &position)?;
            Ok(SmallRecord::AddPoint {
                point: *point,
                position,
            })
        }
        Edit::DropPoint { point } => {
            let (place, row) = take_point(rows, *point);
            Ok(SmallRecord::DropPoint { row, place })
        }
        Edit::Move { point, x, y } => {
            let to = at(*x, *y);
            let from = move_point(rows, *point, &to);
            Ok(SmallRecord::Move {
                point: *point,
                from,
                to,
            })
        }
        Edit::Attach { item, source } => {
            attach(rows, item, *source)?;
            Ok(SmallRecord::Attach {
                item: *item,
                source: *source,
            })
        }
        Edit::Detach { item, source } => {
            let place = detach(rows, item, *source)?;
            Ok(SmallRecord::Detach {
                item: *item,
                source: *source,
                place,
            })
        }
        Edit::Rename { parcel, label } => {
            let to = label.copy()?;
            let from = rename(rows, *parcel, label.copy()?);
            Ok(SmallRecord::Rename {
                parcel: *parcel,
                from,
                to,
            })
        }
        _ => unreachable!(),
    }
}

/// Takes an edit of rows alone back. Where memory runs out the rows stay. A point that came, or lies
/// elsewhere, is taken back without memory.
#[tactic(auto, unfolding(cad_map::specs::Effects::after))]
pub(crate) fn unmake(rows: &mut MapRows, change: &SmallRecord) -> Result<(), Memory>
    requires alone { IsTrue (is_of_rows (edit_of change.now)) }
    requires made { (m : Map) × IsMadeOf change.now m
        × (map_in rows.old ≡ after (without_rings m) (edit_of change.now)) }
    ensures ok { OnOk result ((m : Map) → IsMadeOf change.now m
        → map_in rows.old ≡ after (without_rings m) (edit_of change.now)
        → map_in rows.new ≡ without_rings m) }
    ensures err { OnErr result (map_in rows.new ≡ map_in rows.old) }
    ensures sure { IsPlaced change.now → IsOk result }
{
    match change {
        SmallRecord::AddSource { row } => {
            take_source(rows, row.number);
            Ok(())
        }
        SmallRecord::AddPoint { point, .. } => {
            let _ = take_point(rows, *point);
            Ok(())
        }
        SmallRecord::DropPoint { row, place } => put_point_back(rows, row, *place),
        SmallRecord::Move { point, from, .. } => {
            let _ = move_point(rows, *point, from);
            Ok(())
        }
        SmallRecord::Attach { item, source } => {
            let _ = detach(rows, item, *source)?;
            Ok(())
        }
        SmallRecord::Detach {
            item,
            source,
            place,
        } => attach_at(rows, item, *source, *place),
        SmallRecord::Rename { parcel, from, .. } => {
            let _ = rename(rows, *parcel, from.copy()?);
            Ok(())
        }
        _ => unreachable!(),
    }
}

/// Makes an edit of rows alone again. Where memory runs out the rows stay.
#[tactic(auto, unfolding(cad_map::specs::Effects::after))]
pub(crate) fn remake(rows: &mut MapRows, change: &SmallRecord) -> Result<(), Memory>
    requires alone { IsTrue (is_of_rows (edit_of change.now)) }
    requires unknown { unknown (map_in rows.old) (edit_of change.now) ≡ None }
    requires taken { taken (map_in rows.old) (edit_of change.now) ≡ None }
    requires attached { not_attached (map_in rows.old) (edit_of change.now) ≡ None }
    ensures ok { OnOk result (map_in rows.new ≡ after (map_in rows.old) (edit_of change.now)) }
    ensures err { OnErr result (map_in rows.new ≡ map_in rows.old) }
{
    match change {
        SmallRecord::AddSource { row } => add_source(rows, row.copy()?),
        SmallRecord::AddPoint { point, position } => add_point(rows, *point, position),
        SmallRecord::DropPoint { row, .. } => {
            let _ = take_point(rows, row.number);
            Ok(())
        }
        SmallRecord::Move { point, to, .. } => {
            let _ = move_point(rows, *point, to);
            Ok(())
        }
        SmallRecord::Attach { item, source } => attach(rows, item, *source),
        SmallRecord::Detach { item, source, .. } => {
            let _ = detach(rows, item, *source)?;
            Ok(())
        }
        SmallRecord::Rename { parcel, to, .. } => {
            let _ = rename(rows, *parcel, to.copy()?);
            Ok(())
        }
        _ => unreachable!(),
    }
}
