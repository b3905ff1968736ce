ghost use Rattle.std.specs.Prelude.{◌≡◌, ◌≢◌, ℕ, ◌<◌, ◌≤◌, ◌↔◌, Err, IfErr, IfOk, IsTrue, OnErr, OnOk, length, map};
ghost use Rattle.hlc_verdict.specs.Trace.{IsFirstBad, IsSoundTrace, IsSoundAt, IsTraceFault, ReceivesSend, claim_at};
ghost use Rattle.hlc_verdict.specs.Verdict.{AreVerdicts, AreVerdictsTold};

use crate::audit_fault::AuditFault;
use crate::claim::{AsClaim, Claim, ClaimKind};
use crate::verdict::{FromVerdict, Verdict};
use crate::verdicts::{Verdicts, claim_in};
use hlc_stamp::{MAX_NODES, MAX_READING, MAX_RECORDS, NodeId};
use std::alloc::Global;

/// What is to be said of the claimed stamps of a trace: one verdict for each claim, in order.
///
/// The least stamps are computed from nodes, readings, kinds and places alone, by the clock rule; what is claimed enters
/// the verdicts only. It goes over the claims twice, and takes memory twice, for a trace without a bad place.
pub fn judge(alloc: Global, claims: &[Claim]) -> Result<Vec<Verdict>, AuditFault>
    ensures verdicts { IfOk result (λ verdicts. AreVerdicts claims.now verdicts.items) }
    ensures sound { OnOk result (IsSoundTrace claims.now) }

    // A bad trace is answered before any memory is taken, so out of memory comes only for a sound one.
    ensures bad_trace { (place : ℕ) → (result ≡ Err (AuditFault.BadTrace place)) ↔ IsFirstBad claims.now place }
    ensures faults { IfErr result IsTraceFault }
{
    let left = judge_each(alloc, claims)?;
    let mut verdicts = Vec::from_elem(alloc, Verdict::Least, claims.len())?;
    write_verdicts(left, &mut verdicts);
    Ok(verdicts)
}

/// `judge` for claims and verdicts in the caller's own form: it reads the claims in place, and writes the verdicts in place.
///
/// It takes 16 bytes for each claim, and no more memory than that. Nothing is written for a trace that it doesn't judge.
pub fn judge_into<C: AsClaim, V: FromVerdict>(
    alloc: Global,
    claims: &[C],
    verdicts: &mut [V],
) -> Result<(), AuditFault>
    requires one_each { length verdicts.old ≡ length claims.now }
    ensures verdicts { OnOk result (AreVerdictsTold V.told (map C.claim_of claims.now) verdicts.new) }
    ensures sound { OnOk result (IsSoundTrace (map C.claim_of claims.now)) }

    // A bad trace is answered before any memory is taken, so out of memory comes only for a sound one.
    ensures bad_trace { (place : ℕ) → (result ≡ Err (AuditFault.BadTrace place)) ↔ IsFirstBad (map C.claim_of claims.now) place }
    ensures faults { IfErr result IsTraceFault }
    ensures unchanged { OnErr result (verdicts.new ≡ verdicts.old) }
{
    let left = judge_each(alloc, claims)?;
    write_verdicts(left, verdicts);
    Ok(())
}

/// `judge` with one verdict at a time, each made when it is asked for: no list of them is kept.
///
/// It takes 16 bytes for each claim, and no more memory than that, before the first verdict.
pub fn judge_each<C: AsClaim>(alloc: Global, claims: &[C]) -> Result<Verdicts<'_, C>, AuditFault>
    ensures verdicts { IfOk result (λ verdicts. AreVerdicts (map C.claim_of claims.now) verdicts) }
    ensures sound { OnOk result (IsSoundTrace (map C.claim_of claims.now)) }

    // A bad trace is answered before any memory is taken, so out of memory comes only for a sound one.
    ensures bad_trace { (place : ℕ) → (result ≡ Err (AuditFault.BadTrace place)) ↔ IsFirstBad (map C.claim_of claims.now) place }
    ensures faults { IfErr result IsTraceFault }
{
    find_bad(claims)?;
    let least = Vec::with_capacity(alloc, claims.len())?;
    Ok(Verdicts {
        claims,
        last: [None; MAX_NODES as usize],
        least,
    })
}

// Writes the verdicts that are left, one in each place.
fn write_verdicts<C: AsClaim, V: FromVerdict>(left: Verdicts<'_, C>, verdicts: &mut [V])
    requires one_each { length verdicts.old ≡ length left }
    ensures { verdicts.new ≡ map V.told left.entry }
{
    for (place, verdict) in left.enumerate() {
        verdicts[place] = V::from_verdict(verdict);
    }
}

// The first bad place, as a fault.
fn find_bad<C: AsClaim>(claims: &[C]) -> Result<(), AuditFault>
    ensures sound { OnOk result (IsSoundTrace (map C.claim_of claims.now)) }
    ensures bad { IfErr result (λ fault. (place : ℕ) × (fault ≡ AuditFault.BadTrace place) × IsFirstBad (map C.claim_of claims.now) place) }
{
    for place in 0..claims.len() {
        if !is_sound_at(claims, place) {
            return Err(AuditFault::BadTrace(place as u32));
        }
    }
    Ok(())
}

// Whether a claim is one that a trace may have at its place.
fn is_sound_at<C: AsClaim>(claims: &[C], place: usize) -> bool
    requires { place < length claims.now }
    ensures { IsTrue result ↔ IsSoundAt (map C.claim_of claims.now) place }
{
    let claim = claim_in(claims, place);
    place < MAX_RECORDS as usize
        && claim.node.0 < MAX_NODES
        && claim.reading >= 1
        && claim.reading <= MAX_READING
        && receives_send(claims, place)
}

// Whether what a claim receives, if anything, is the earlier send of another node.
fn receives_send<C: AsClaim>(claims: &[C], place: usize) -> bool
    requires { place < length claims.now }
    ensures { IsTrue result ↔ ReceivesSend (map C.claim_of claims.now) place (claim_at (map C.claim_of claims.now) place).kind }
{
    let claim = claim_in(claims, place);
    match claim.kind {
        ClaimKind::Receive { sent } => {
            let sent = sent.0 as usize;
            sent < place && is_send_elsewhere(claim_in(claims, sent), claim.node)
        }
        _ => true,
    }
}

// Whether a claim is of a send, and of another node than this one.
fn is_send_elsewhere(claim: Claim, node: NodeId) -> bool
    ensures { IsTrue result ↔ ((claim.kind ≡ ClaimKind.Send) × (claim.node.0 ≢ node.0)) }
{
    claim.kind == ClaimKind::Send && claim.node != node
}
