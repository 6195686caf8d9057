// Puts the clauses by name, in the words of document 01, T-09 and T-11 and in their order.
use crate::ClauseFound;
use check_judging::number4::Clauses4;
use check_judging::number5::Clauses5;
use check_judging::number6::Keys;
use check_judging::number7::Clauses7;
use std::fmt;
use std::fmt::Write;

// Puts the line of a clause of this `number` if it applies.
fn clause(w: &mut impl Write, applies: bool, number: usize, text: &str) -> fmt::Result {
    if applies {
        writeln!(w, "  {number}: {text}")?;
    }
    Ok(())
}

// Puts the clauses of number 4 on payloads and on the counts of policies and bags.
fn put_composition(w: &mut impl Write, x: Clauses4) -> fmt::Result {
    clause(w, x.critical, 4, "critical unknown payload")?;
    clause(w, x.member_bag, 4, "Member Key Bag in a rekey")?;
    clause(w, x.delete, 4, "D in another exchange than GSA_REKEY")?;
    clause(w, x.two_gsa, 4, "two GSA")?;
    clause(w, x.two_kd, 4, "two KD")?;
    clause(w, x.gsa_alone, 4, "GSA without KD")?;
    clause(w, x.kd_alone, 4, "KD without GSA")?;
    clause(w, x.neither, 4, "neither GSA nor KD (nor D in GSA_REKEY)")?;
    clause(w, x.rekeys, 4, "more than one Rekey policy")?;
    clause(w, x.wides, 4, "more than one group-wide policy")?;
    clause(w, x.members, 4, "more than one Member Key Bag")?;
    clause(w, x.no_sa, 4, "GSA with no SA policy")
}

// Puts the clauses of number 4 on what policies hold.
fn put_policies(w: &mut impl Write, x: Clauses4) -> fmt::Result {
    clause(w, x.two_lengths, 4, "Key Length twice in one transform")?;
    clause(
        w,
        x.two_message_ids,
        4,
        "GSA_INITIAL_MESSAGE_ID twice in one policy",
    )?;
    clause(
        w,
        x.two_delays,
        4,
        "deactivation delay (GWP_DTD) twice in one policy",
    )?;
    clause(
        w,
        x.elsewhere,
        4,
        "Rekey destination is not one address in 224.0.0.0/4 or ff00::/8 and one port",
    )?;
    clause(
        w,
        x.two_lifetimes,
        4,
        "GSA_KEY_LIFETIME twice in one policy",
    )
}

// Puts the clauses of number 5.
fn put_number_5(w: &mut impl Write, x: Clauses5) -> fmt::Result {
    clause(w, x.ah_policy, 5, "AH policy")?;
    clause(w, x.ah_bag, 5, "AH bag")?;
    clause(
        w,
        x.unfit,
        5,
        "policy whose transforms are not exactly those it must have",
    )?;
    clause(w, x.other, 5, "D of another protocol than ESP")?;
    clause(w, x.none, 5, "D with count 0")
}

// Puts the clauses of number 6 on the pairing of policies and bags.
fn put_pairing(w: &mut impl Write, policies: bool, bags: bool) -> fmt::Result {
    clause(
        w,
        policies,
        6,
        "policy whose protocol and SPI not exactly one Group Key Bag has",
    )?;
    clause(
        w,
        bags,
        6,
        "Group Key Bag whose protocol and SPI not exactly one policy has",
    )
}

// Puts the clauses of number 6 on the keys of the bags, and on fresh keys.
fn put_keys(w: &mut impl Write, x: Keys) -> fmt::Result {
    clause(
        w,
        x.count,
        6,
        "SA_KEY count of a bag not 1 (for a Rekey SA in GSA_REKEY: 0)",
    )?;
    clause(w, x.named, 6, "SA_KEY with Key ID not 0")?;
    clause(w, x.esp_with_kwk_id, 6, "ESP SA_KEY with KWK ID not 0")?;
    clause(w, x.unnamed, 6, "WRAP_KEY with Key ID 0")?;
    clause(w, x.itself, 6, "WRAP_KEY whose Key ID is its KWK ID")?;
    clause(w, x.fresh_unnamed, 6, "fresh key with Key ID 0")?;
    clause(w, x.fresh_itself, 6, "fresh key whose Key ID is its KWK ID")
}

// Puts the clauses of number 7.
fn put_number_7(w: &mut impl Write, x: Clauses7) -> fmt::Result {
    clause(w, x.esps, 7, "more ESP policies than a member takes")?;
    clause(w, x.wraps, 7, "more WRAP_KEY than a member takes")?;
    clause(w, x.overfull, 7, "more SA_KEY in a bag than a member takes")?;
    clause(w, x.spis, 7, "more deleted SPIs than a member takes")?;
    clause(w, x.long, 7, "lifetime of more than 2000000 seconds")?;
    clause(w, x.fresh, 7, "more fresh keys than a member takes")?;
    clause(w, x.sas, 7, "more SAs than an empty table takes")
}

// Puts all clauses that apply, by rising numbers.
fn put_each(w: &mut impl Write, x: ClauseFound) -> fmt::Result {
    put_composition(w, x.number4)?;
    put_policies(w, x.number4)?;
    put_number_5(w, x.number5)?;
    put_pairing(w, x.policies, x.bags)?;
    put_keys(w, x.keys)?;
    put_number_7(w, x.number7)
}

// Puts a line for each clause that applies, or a line saying that none does. A frame of another exchange is not judged by them: its line is
// that of number 2.
pub(crate) fn put_lines(w: &mut impl Write, x: ClauseFound) -> fmt::Result {
    if !x.admitted {
        return writeln!(
            w,
            "  2: exchange not GSA_AUTH, GSA_REGISTRATION, GSA_REKEY or GSA_INBAND_REKEY"
        );
    }
    if x.any {
        return put_each(w, x);
    }
    writeln!(w, "  no clause of 4 to 7 applies to the frame alone")
}
