ghost use Rattle.std.specs.Prelude.{◌≡◌, IfOk, Some, codes, option_copied, option_map};
ghost use Rattle.serde_json.specs.View.{view};
ghost use Rattle.sig_json.specs.Answers.{Answers};
ghost use Rattle.sig_set.specs.Checks.{outcome, passed};
ghost use Rattle.sig_set.specs.Claims.{audience_in, text_in};
ghost use Rattle.sig_set.specs.Judgement.{issuer_checks, issuer_in, issuer_named, judged, result_of, speaks_for, trust_checks};

use crate::audience::{audience, has_name};
use crate::content::content;
use crate::header::verify;
use crate::opening::{Opened, open};
use crate::refusal::refused;
use crate::values::has_text;
use crate::{Claims, Code, LastHeader, PreparedIssuer, PreparedTrust, Refusal, Spot, Trust};
use sig_json::{Items, Text, Value, text_of};
use std::alloc::Global;

/// The claims of a token, or the first check that fails (RFC 8417, section 2; RFC 7515, section 5.2; for `exp`, `sub`
/// and `sub_id` OpenID Shared Signals Framework 1.0, section 4, and for `sub_id` RFC 9493; the codes are those of RFC
/// 8935, section 2.4).
///
/// `principal` is the issuer for whom the bearer may speak, none where the bearer names nobody. `named` is the identifier
/// under which a poll listed the token. The checks, in their order, with the spot of each:
///
/// 1. `AuthenticationFailed`: there is a principal (`Bearer`).
/// 2. `InvalidRequest`: the text has at most 8,192 bytes (`Length`) and the compact form (`Compact`); the header is an
///    object (`Header`) whose `typ` is `secevent+jwt`, with or without `application/` and in any ASCII case (`Typ`), and
///    which has no `crit` (`Crit`); the payload is an object (`Payload`) whose `iss` is a text (`Iss`).
/// 3. `InvalidIssuer`: the issuer is configured (`Iss`); of two with one name the first counts.
/// 4. `AccessDenied`: it is the principal (`Iss`).
/// 5. `InvalidKey`: `alg` is `HS256` or `RS256` (`Alg`; RFC 7518, sections 3.2 and 3.3), for which the issuer has secrets
///    and public keys; some key for that algorithm fits the header's `kid` (`Kid`); one of these signed it (`Mac`), by its
///    MAC or its signature. Without `kid` every key fits. A key without a name fits every `kid` that is a text, one with
///    a name only that text; a `kid` that is no text fits none.
/// 6. `InvalidAudience`: `aud` is the audience, or a list of texts that holds it (`Aud`).
/// 7. `InvalidRequest`: `jti` is a text that isn't empty, and the name where one is given (`Jti`); `iat` is a whole number
///    from 0 to 2^62 (`Iat`); there is neither `exp` (`Exp`) nor `sub` (`Sub`); `sub_id` is a subject (`SubId`); `events`
///    has a member (`Events`), and each, in byte order of its URI, is an event about the subject (`Event`).
///
/// A `crit`, `exp` or `sub` of null is there too. Other members are passed over. `Memory` is out of memory. It prepares
/// every key anew and keeps no header, so for many tokens over one trust take `judge_prepared`.
pub fn judge(
    alloc: Global,
    trust: &Trust,
    principal: Option<&Text>,
    named: Option<&Text>,
    bytes: &[u8],
) -> Result<Claims, Refusal>
    ensures { Answers Refusal.Memory result (result_of (judged trust.now (option_copied principal.entry) (option_copied named.entry) bytes.now)) }
{
    let prepared = PreparedTrust::of(alloc, trust)?;
    let mut last = LastHeader::none();
    judge_prepared(alloc, &prepared, &mut last, principal, named, bytes)
}

/// The same, with the keys prepared once for many tokens over one trust, and with the header that was the last one. A token
/// whose header has the same bytes isn't asked again what they spell; whatever the last one was, the answer is the same.
pub fn judge_prepared(
    alloc: Global,
    trust: &PreparedTrust,
    last: &mut LastHeader,
    principal: Option<&Text>,
    named: Option<&Text>,
    bytes: &[u8],
) -> Result<Claims, Refusal>
    ensures { Answers Refusal.Memory result (result_of (judged trust.now (option_copied principal.entry) (option_copied named.entry) bytes.now)) }
{
    if principal.is_none() {
        return Err(refused(Code::AuthenticationFailed, Spot::Bearer));
    }
    let opened = open(alloc, last, bytes)?;
    let audience = audience(alloc, &opened.payload)?;
    check_trust(trust, principal, last.value(), &opened, &audience)?;
    content(alloc, named, &opened.payload, audience)
}

/// That the token is by an issuer who is trusted and for whom the bearer speaks, signed by a key of it, and for the
/// trust's own audience.
fn check_trust(
    trust: &PreparedTrust,
    principal: Option<&Text>,
    header: &Value,
    opened: &Opened,
    audience: &Option<Items<Text>>,
) -> Result<(), Refusal>
    requires { audience.now ≡ audience_in (Some (view opened.now.payload)) }
    ensures { result ≡ passed
        (trust_checks trust.now (option_copied principal.entry) (Some opened.now.token) (Some (view header.now)) (Some (view opened.now.payload))) }
{
    let issuer = issuer_for(trust.issuers(), principal, &opened.payload)?;
    verify(&opened.token, header, issuer)?;
    if !has_name(audience, trust.audience()) {
        return Err(refused(Code::InvalidAudience, Spot::Aud));
    }
    Ok(())
}

/// The payload's issuer, where it is configured and the bearer speaks for it.
fn issuer_for<'a>(
    issuers: &'a [PreparedIssuer],
    principal: Option<&Text>,
    payload: &Value,
) -> Result<&'a PreparedIssuer, Refusal>
    ensures checks { outcome result ≡ passed (issuer_checks issuers.now (option_copied principal.entry) (Some (view payload.now))) }
    ensures issuer { IfOk result (λ issuer. issuer_in issuers.now (Some (view payload.now)) ≡ Some issuer.now) }
{
    let Some(issuer) = issuer_in(issuers, payload) else {
        return Err(refused(Code::InvalidIssuer, Spot::Iss));
    };
    if !speaks_for(principal, payload) {
        return Err(refused(Code::AccessDenied, Spot::Iss));
    }
    Ok(issuer)
}

/// The issuer that the payload names.
fn issuer_in<'a>(issuers: &'a [PreparedIssuer], payload: &Value) -> Option<&'a PreparedIssuer>
    ensures { option_map (λ issuer. issuer.now) result ≡ issuer_in issuers.now (Some (view payload.now)) }
{
    match text_of(payload, "iss") {
        None => None,
        Some(iss) => issuer_named(iss, issuers),
    }
}

/// The first issuer of this name.
fn issuer_named<'a>(iss: &str, issuers: &'a [PreparedIssuer]) -> Option<&'a PreparedIssuer>
    ensures { option_map (λ issuer. issuer.now) result ≡ issuer_named iss.now issuers.now }
{
    issuers.iter().find(|issuer| issuer.is_named(iss))
}

/// Whether the principal is the payload's issuer.
fn speaks_for(principal: Option<&Text>, payload: &Value) -> bool
    ensures { result ≡ speaks_for (option_copied principal.entry) (text_in (codes "iss") (Some (view payload.now))) }
{
    let Some(name) = principal else {
        return false;
    };
    has_text(payload, "iss", name.as_str())
}
