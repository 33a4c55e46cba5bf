//! Scripts: what a text with tables reads as, and the first faults of others.
#![tactic(auto, unfolding(dsp_defs::specs::Token::items_from, dsp_defs::specs::Numeral::value_of, dsp_defs::specs::Table::by_name, dsp_defs::specs::Tables::numbers_of, dsp_defs::specs::Places::first_of, dsp_defs::specs::Places::next_at, dsp_defs::specs::Places::natural_at, dsp_defs::specs::Places::judged, dsp_defs::specs::Places::entries_at, dsp_defs::specs::Places::list_at, dsp_defs::specs::Places::table_at, dsp_defs::specs::Places::tables_at, dsp_defs::specs::Places::environment_at, dsp_defs::specs::Reading::block_at, dsp_defs::specs::Reading::place_of, dsp_defs::specs::Reading::blocks_at, dsp_defs::specs::Reading::length_at, dsp_defs::specs::Reading::kind_at, dsp_defs::specs::Reading::input_at, dsp_defs::specs::Reading::script_at, dsp_defs::specs::Reading::reading))]

ghost use Rattle.std.specs.Prelude.{◌≡◌, [], ◌∷◌, ◌++◌, pos, codes, Ok, Some, None};
ghost use Rattle.dsp_defs.specs.Numbers.{neg};
ghost use Rattle.dsp_defs.specs.Reading.{first_fault, reading};

use dsp_defs::{Block, Container, Fmt, InputKind, ScriptKind};

pub fn a_table_in_two_blocks()
    ensures { reading (codes
        "dspfx 2 input raw q15 1 8000 table fir {16384 -3} fir fir conv fir output wavex") ≡ Ok (record {
          version = 2;
          input = record { kind = InputKind.Raw 8000; format = Fmt.Q15; channels = 1 };
          block = None;
          blocks = Block.Fir (pos 16384 ∷ neg 3 ∷ []) ∷ Block.Conv (pos 16384 ∷ neg 3 ∷ []) ∷ [];
          output = Container.Wavex;
        }) }
{}

pub fn faults_of_tables()
    ensures range { first_fault (codes "dspfx 2 input raw q15 1 8000 table a {40000} fir a output raw") ≡ Some
        (record { offset = 49; kind = ScriptKind.OutOfRange (neg 32768) (pos 32767) }) }
    ensures unknown { first_fault (codes "dspfx 2 input raw q15 1 8000 table a {40000} fir b output raw") ≡
        Some (record { offset = 49; kind = ScriptKind.UnknownWord }) }
    ensures no_name { first_fault (codes "dspfx 2 input raw q15 1 8000 table 9 {1}") ≡ Some
        (record { offset = 35; kind = ScriptKind.BadName }) }
    ensures taken { first_fault (codes "dspfx 2 input raw q15 1 8000 table a {1} table a {2}") ≡ Some
        (record { offset = 47; kind = ScriptKind.NameTaken }) }
    ensures empty { first_fault (codes "dspfx 2 input raw q15 1 8000 table a {} fir a") ≡ Some
        (record { offset = 44; kind = ScriptKind.Length 0 1 }) }
{}

pub fn faults_of_versions()
    ensures first { first_fault (codes "dspfx 1 input raw q15 1 8000 table") ≡ Some
        (record { offset = 29; kind = ScriptKind.UnknownWord }) }
    ensures first_list { first_fault (codes "dspfx 1 input raw q15 1 8000 fir a") ≡ Some
        (record { offset = 33; kind = ScriptKind.Missing }) }
    ensures third { first_fault (codes "dspfx 3") ≡ Some
        (record { offset = 6; kind = ScriptKind.OutOfRange (pos 1) (pos 2) }) }
    ensures input { first_fault (codes "dspfx 2 input wavex q15 1") ≡ Some
        (record { offset = 14; kind = ScriptKind.UnknownWord }) }
{}
