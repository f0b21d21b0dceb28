// The packets of pairs, of groups of samples and an anode, of opaque words: what follows a packet's own row, at the front of `part`.
#![tactic(auto, using(event::proofs::RowsIn::rows_count))]

ghost use Rattle.std.specs.Prelude.{◌≡◌, drop};
ghost use Rattle.event.specs.Scanning.{Writes};
ghost use Rattle.event.specs.Writing.{rows_in};
ghost use Rattle.s800_layout.specs.Event.{Opaque, scintillator, crdc, opaque, anode_tag, tag as tag_of};
ghost use Rattle.s800_layout.specs.Layout.{framed, anode_words};
ghost use Rattle.s800_layout.specs.Writing.{anode};
ghost use Rattle.s800_format.specs.Tag.{number};
ghost use Rattle.s800_writer.specs.Packets.{WritesPacket};

use crate::content::{write_opaque_words, write_pairs};
use crate::groups::write_samples;
use crate::part::close;
use crate::row::check_limits;
use crate::run::{OwnRow, Run};
use event::Part;
use event::kind::Kind;
use event::refusal::Refusal;
use event::rows::row_at;
use event::words::store_word;
use s800_format::tag::Tag;

// 0x5810: pairs of an energy and a time.
pub(crate) fn write_scintillator(own: OwnRow, part: &mut [u16]) -> Result<Part, Refusal>
    ensures { WritesPacket scintillator 0 (rows_in own.entry.rows.now) own.entry.at part.old result part.new }
{
    let pairs = write_pairs(
        Run {
            rows: own.rows,
            from: own.at + 1,
            first: 2,
        },
        part,
    )?;
    close(part, 0, Tag::Scintillator, pairs.count);
    Ok(pairs)
}

// 0x5840: the id, an inner packet 0x5841 of a threshold and groups, an inner packet 0x5845 of the anode.
pub(crate) fn write_crdc(own: OwnRow, id: u32, part: &mut [u16]) -> Result<Part, Refusal>
    ensures { WritesPacket crdc id (rows_in own.entry.rows.now) own.entry.at part.old result part.new }
{
    let threshold = row_at(own.rows, own.at + 1);
    check_limits(threshold, Kind::Threshold, 0, 0, 65535, own.at + 1)?;
    store_word(part, 2, id as usize);
    store_word(part, 5, threshold.datum as usize);
    let samples = write_samples(
        Run {
            rows: own.rows,
            from: own.at + 2,
            first: 6,
        },
        part,
    )?;
    close(part, 3, Tag::CrdcSamples, samples.count);
    let anode = write_anode(
        Run {
            rows: own.rows,
            from: samples.next,
            first: samples.count,
        },
        part,
    )?;
    close(part, 0, Tag::Crdc, anode.count);
    Ok(anode)
}

// The inner packet 0x5845 at word `at` of the packet: the anode's energy and time.
fn write_anode(run: Run, part: &mut [u16]) -> Result<Part, Refusal>
    ensures { Writes 16 (λ a. framed anode_tag (anode_words a)) (anode run.entry.from (drop run.entry.from (rows_in run.entry.rows.now))) (rows_in run.entry.rows.now) run.entry.first part.old result part.new }
{
    let row = row_at(run.rows, run.from);
    check_limits(row, Kind::Anode, 0, 65535, 65535, run.from)?;
    store_word(part, run.first + 2, row.channel as usize);
    store_word(part, run.first + 3, row.datum as usize);
    close(part, run.first, Tag::CrdcAnode, run.first + 4);
    Ok(Part {
        next: run.from + 1,
        count: run.first + 4,
    })
}

// The packets of opaque words.
pub(crate) fn write_opaque(own: OwnRow, tag: Tag, part: &mut [u16]) -> Result<Part, Refusal>
    ensures { (k : Opaque) → number tag ≡ tag_of (opaque k) → WritesPacket (opaque k) 0 (rows_in own.entry.rows.now) own.entry.at part.old result part.new }
{
    let content = write_opaque_words(
        Run {
            rows: own.rows,
            from: own.at + 1,
            first: 2,
        },
        part,
    )?;
    close(part, 0, tag, content.count);
    Ok(content)
}
