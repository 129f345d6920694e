//! Blocks of properties, read in their places and written (2.2.2).

ghost use Rattle.std.specs.Prelude.{◌≡◌, ◌⊎◌, ◌++◌, List, ℕ, drop, IfOk, IfErr, OnOk, OnErr, IsOkUnless, Ok, Err};
ghost use Rattle.mqtt_base.specs.Reading.{Reads};
ghost use Rattle.mqtt_props.specs.Laws.{lawful_at, layout_at, Begins, IsLawful, Refuses};
ghost use Rattle.mqtt_props.specs.Properties.{Prop, block};
ghost use Rattle.mqtt_props.specs.Spelling.{IsBlock};

use crate::fault::PropFault;
use crate::list::{PropList, PropsRef, block_read};
use crate::place::Place;
use std::alloc::Global;

/// Lends the lawful block at the front, and how many bytes it takes. Takes no memory.
pub fn look_at(bytes: &[u8], place: Place) -> Result<(PropsRef<'_>, usize), PropFault>
    ensures exact { Reads (λ ps. ps) result bytes.now (lawful_at place bytes.now) }
    ensures found { IfOk result (λ x. Begins place x.0 (drop x.1 bytes.now) bytes.now
        × IsLawful place x.0) }
    ensures only { (ps : List Prop) (rest : List ℕ) → Begins place ps rest bytes.now
        → IsLawful place ps → Reads (λ ps. ps) result bytes.now (Ok (ps, rest)) }
    ensures refused { IfErr result (Refuses place bytes.now) }
{
    lawful_read(bytes, place)
}

#[tactic(auto, using(crate::proofs::Placed::lawful_by_layout))]
fn lawful_read(bytes: &[u8], place: Place) -> Result<(PropsRef<'_>, usize), PropFault>
    ensures { Reads (λ ps. ps) result bytes.now (lawful_at place bytes.now) }
{
    let (props, taken) = block_read(bytes, place)?;
    props.laws_test(place)?;
    Ok((props, taken))
}

/// Lends the block at the front whose properties may stand there, be it lawful or not, and how many
/// bytes it takes. Takes no memory.
#[inline(always)]
pub fn layout_read(bytes: &[u8], place: Place) -> Result<(PropsRef<'_>, usize), PropFault>
    ensures exact { Reads (λ ps. ps) result bytes.now (layout_at place bytes.now) }
    ensures found { IfOk result (λ x. Begins place x.0 (drop x.1 bytes.now) bytes.now) }
    ensures only { (ps : List Prop) (rest : List ℕ) → Begins place ps rest bytes.now
        → Reads (λ ps. ps) result bytes.now (Ok (ps, rest)) }
    ensures refused { IfErr result (λ fault. (fault ≡ PropFault.Malformed)
        × Refuses place bytes.now fault) }
{
    block_read(bytes, place)
}

/// Reads the lawful block at the front, and how many bytes it takes.
pub fn read(alloc: Global, bytes: &[u8], place: Place) -> Result<(PropList, usize), PropFault>
    ensures found { IfOk result (λ x. Begins place x.0 (drop x.1 bytes.now) bytes.now
        × IsLawful place x.0) }
    ensures only { (ps : List Prop) (rest : List ℕ) → Begins place ps rest bytes.now
        → IsLawful place ps → (result ≡ Err PropFault.Memory) ⊎ Reads (λ ps. ps) result bytes.now (Ok (ps, rest)) }
    ensures refused { IfErr result (λ fault. (fault ≡ PropFault.Memory)
        ⊎ Refuses place bytes.now fault) }
{
    let (props, taken) = look_at(bytes, place)?;
    let list = props.to_list(alloc)?;
    Ok((list, taken))
}

/// Writes the block of the list at the end.
#[tactic(auto, using(crate::proofs::LawLemmas::block_of))]
pub fn write(list: &PropList, out: &mut Vec<u8>) -> Result<(), PropFault>
    ensures ok { OnOk result (out.new.items ≡ out.old.items ++ block list.now) }
    // The block spells the list (2.2.2).
    ensures spelled { IsBlock list.now (block list.now) }
    ensures err { OnErr result (out.new.items ≡ out.old.items) }
    ensures fault { IsOkUnless result PropFault.Memory }
{
    let lent = list.lend();
    // This shows that the list has a spelling.
    let _len = lent.block_len();
    lent.push_block(out)?;
    Ok(())
}
