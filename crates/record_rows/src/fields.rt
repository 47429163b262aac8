//! The fields of a record, as the view of its kind has them.
use cb_meaning::layout::LAYOUT_1;
use cb_records::cards::CardsView;
use cb_records::free::FreeView;
use cb_records::jct::JctView;
use cb_records::jfcb::JfcbView;
use cb_records::rec::Rec;
use cb_records::sct::SctView;
use cb_records::siot::SiotView;
use row_table::told::Told;

/// A line of a text: its name, and its bytes.
fn tell_text(told: &mut Told, name: &[u8], text: &[u8]) {
    told.word(name);
    told.bytes(text);
    told.end_line();
}

fn tell_jct(told: &mut Told, jct: &JctView<'_>) {
    told.line(b"JCT");
    told.numbered_line(b"layout ", u64::from(jct.layout_number()));
    told.numbered_line(b"class ", u64::from(jct.class()));
    told.numbered_line(b"priority ", u64::from(jct.priority()));
    told.numbered_line(b"message class ", u64::from(jct.message_class()));
    told.numbered_line(b"first step ", u64::from(jct.first_step()));
    told.numbered_line(b"steps ", u64::from(jct.steps()));
    told.numbered_line(b"tests ", u64::from(jct.test_count()));
    told.numbered_line(b"first operator ", u64::from(jct.test_operator(0)));
    told.numbered_line(b"first code ", u64::from(jct.test_code(0)));
    told.numbered_line(b"last operator ", u64::from(jct.test_operator(7)));
    told.numbered_line(b"last code ", u64::from(jct.test_code(7)));
    tell_text(told, b"name ", jct.name());
    tell_text(told, b"status ", jct.status_bytes());
}

fn tell_sct(told: &mut Told, sct: &SctView<'_>) {
    told.line(b"SCT");
    told.numbered_line(b"next ", u64::from(sct.next()));
    told.numbered_line(b"first DD ", u64::from(sct.first_dd()));
    told.numbered_line(b"DDs ", u64::from(sct.dds()));
    told.numbered_line(b"after abend ", u64::from(sct.after_abend()));
    told.numbered_line(b"tests ", u64::from(sct.test_count()));
    told.numbered_line(b"first operator ", u64::from(sct.test_operator(0)));
    told.numbered_line(b"first code ", u64::from(sct.test_code(0)));
    told.numbered_line(b"first step ", u64::from(sct.test_step(0)));
    told.numbered_line(b"last operator ", u64::from(sct.test_operator(7)));
    told.numbered_line(b"last code ", u64::from(sct.test_code(7)));
    told.numbered_line(b"last step ", u64::from(sct.test_step(7)));
    tell_text(told, b"name ", sct.name());
    tell_text(told, b"procedure step ", sct.procedure_step());
    tell_text(told, b"program ", sct.program());
    tell_text(told, b"status ", sct.status_bytes());
}

fn tell_siot(told: &mut Told, siot: &SiotView<'_>) {
    told.line(b"SIOT");
    told.numbered_line(b"next ", u64::from(siot.next()));
    told.numbered_line(b"below ", u64::from(siot.below()));
    told.numbered_line(b"kind ", u64::from(siot.dd_kind()));
    told.numbered_line(b"set status ", u64::from(siot.status()));
    told.numbered_line(b"normal ", u64::from(siot.normal()));
    told.numbered_line(b"conditional ", u64::from(siot.conditional()));
    told.numbered_line(b"marks ", u64::from(siot.marks()));
    told.numbered_line(b"class ", u64::from(siot.class()));
    told.numbered_line(b"cards ", u64::from(siot.cards()));
    told.numbered_line(b"volume ", u64::from(siot.volume()));
    told.numbered_line(b"volume step ", u64::from(siot.volume_step()));
    told.numbered_line(b"volume DD ", u64::from(siot.volume_dd()));
    told.numbered_line(b"primary ", u64::from(siot.primary()));
    told.numbered_line(b"secondary ", u64::from(siot.secondary()));
    told.numbered_line(b"units ", u64::from(siot.units()));
    tell_text(told, b"name ", siot.name());
    tell_text(told, b"status ", siot.status_bytes());
}

fn tell_jfcb(told: &mut Told, jfcb: &JfcbView<'_>) {
    told.line(b"JFCB");
    told.numbered_line(b"key ", u64::from(jfcb.key_kind()));
    told.numbered_line(b"sign ", u64::from(jfcb.sign()));
    told.numbered_line(b"amount ", u64::from(jfcb.amount()));
    told.numbered_line(b"unnamed step ", u64::from(jfcb.unnamed_step()));
    told.numbered_line(b"unnamed DD ", u64::from(jfcb.unnamed_dd()));
    tell_text(told, b"name ", jfcb.name());
    tell_text(told, b"serial ", jfcb.serial());
    tell_text(told, b"volume name ", jfcb.volume_name());
}

fn tell_cards(told: &mut Told, cards: &CardsView<'_>) {
    told.line(b"CARDS");
    told.numbered_line(b"next ", u64::from(cards.next()));
    told.numbered_line(b"count ", u64::from(cards.count()));
    tell_text(told, b"first ", cards.first());
    tell_text(told, b"second ", cards.second());
}

/// The fields of a record that is part of a step's description.
fn tell_below(told: &mut Told, rec: &Rec) {
    if let Some(siot) = SiotView::of(rec, &LAYOUT_1) {
        tell_siot(told, &siot);
    }
    if let Some(jfcb) = JfcbView::of(rec, &LAYOUT_1) {
        tell_jfcb(told, &jfcb);
    }
    if let Some(cards) = CardsView::of(rec, &LAYOUT_1) {
        tell_cards(told, &cards);
    }
}

/// The fields of a record, by each view that takes it, and its owner.
pub(crate) fn tell_fields(told: &mut Told, rec: &Rec) {
    told.numbered_line(b"owner ", u64::from(rec.owner()));
    if let Some(free) = FreeView::of(rec, &LAYOUT_1) {
        told.numbered_line(b"FREE, next ", u64::from(free.next()));
    }
    if let Some(jct) = JctView::of(rec, &LAYOUT_1) {
        tell_jct(told, &jct);
    }
    if let Some(sct) = SctView::of(rec, &LAYOUT_1) {
        tell_sct(told, &sct);
    }
    tell_below(told, rec);
}
