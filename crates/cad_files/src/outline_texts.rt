//! The text of the outline of a face.
ghost use Rattle.std.specs.Prelude.{◌≡◌, ◌≤◌, ◌++◌, ◌∷◌, [], OnOk, IfOk, map, take, drop, length, codes};
ghost use Rattle.cad_map.specs.Valid.{IsValid};
ghost use Rattle.cad_files.specs.Texts.{HasAppended, record_text, text_of};
ghost use Rattle.cad_files.specs.Reports.{outlines_of, ring_record, end_record, outline_answer};

use crate::answers::answer_text;
use crate::list_texts::list_text;
use crate::plan_texts::face_number;
use crate::writing::{finished, write_record, writer as new_writer};
use cad_history::Answer;
use cad_map::MapView;
use cad_rings::Ring;
use cad_rows::{Face, Memory, Name, Refusal};
use csv::Writer;
use itoa::Buffer;
use std::alloc::Global;

// Writes the record of a ring of this kind.
fn write_ring(
    alloc: Global,
    writer: &mut Writer<Vec<u8>>,
    face: &Face,
    kind: &[u8],
    ring: &Ring,
) -> Result<(), Memory>
    ensures { OnOk result
        (HasAppended (record_text (ring_record face.now kind.now ring.now)) writer.old writer.new) }
{
    let mut number = Buffer::new();
    let points = list_text(alloc, ring.points())?;
    let number = number.format(face_number(*face)).as_bytes();
    let points = points.as_slice();
    write_record(writer, &[b"ring", number, kind, points, b"", b"", b""])
}

// Writes the records of rings of one kind.
fn write_rings(
    alloc: Global,
    writer: &mut Writer<Vec<u8>>,
    face: &Face,
    kind: &[u8],
    rings: &[Ring],
) -> Result<(), Memory>
    ensures { OnOk result
        (HasAppended (text_of
        (map (ring_record face.now kind.now) rings.now)) writer.old writer.new) }
{
    for place in 0..rings.len() {
        write_ring(alloc, writer, face, kind, &rings[place])?;
    }
    Ok(())
}

// The text of the rings of a face, of which so many run around it.
fn rings_text(
    alloc: Global,
    face: &Face,
    rings: &[Ring],
    outlines: usize,
) -> Result<Vec<u8>, Memory>
    requires { outlines ≤ length rings.now }
    ensures { IfOk result (λ text. text.items
        ≡ text_of (map (ring_record face.now (codes "outer")) (take outlines rings.now)
        ++ (map (ring_record face.now (codes "hole")) (drop outlines rings.now) ++ end_record
        ∷ []))) }
{
    let (outer, holes) = rings.split_at(outlines);
    let mut writer = new_writer(alloc);
    write_rings(alloc, &mut writer, face, b"outer", outer)?;
    write_rings(alloc, &mut writer, face, b"hole", holes)?;
    write_record(&mut writer, &[b"end", b"", b"", b"", b"", b"", b""])?;
    let text = finished(writer)?;
    Ok(text)
}

// How many rings run around a face of a valid map: none around the outside.
fn outlines(face: Face) -> usize
    ensures { result ≡ outlines_of face }
{
    match face {
        Face::Outside => 0,
        Face::Parcel(_) => 1,
    }
}

/// The rings of a face of a valid map, with the face's number, 0 for the outside: that around it as `outer`, and then
/// those around its holes as `hole`. Of an unknown parcel the refusal of what is unknown. An error where memory runs
/// out.
pub fn outline_text<M: MapView>(alloc: Global, view: &M, face: Face) -> Result<Vec<u8>, Memory>
    requires { IsValid (M.map view.now) }
    ensures { IfOk result (λ text. text.items ≡ text_of (outline_answer (M.map view.now) face)) }
{
    match view.outline(alloc, face)? {
        Some(rings) => {
            let around = outlines(face);
            rings_text(alloc, &face, rings.as_slice(), around)
        }
        None => match face {
            Face::Parcel(parcel) => {
                let unknown = Refusal::Unknown(Name::Parcel(parcel));
                answer_text(alloc, &Answer::Refused(unknown))
            }
            Face::Outside => unreachable!(),
        },
    }
}
