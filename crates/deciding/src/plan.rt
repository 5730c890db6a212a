// What an effect sends, laid out and planned.
ghost use Rattle.std.specs.Prelude.{◌≡◌, length};
ghost use Rattle.sending.specs.Send.{PlanFor};
ghost use Rattle.decisions.specs.Effects.{messages_of};
ghost use Rattle.deciding.specs.Layout.{one, roots_of, issue_draft_of, draft_of, CanSend};

use decisions::Sends;
use drafts::{NODES, Node};
use exchange::form::Form;
use layouts::{
    AUTHENTICATOR_ROOT, BESIDE_ROOT, CONFIRMATION_ROOT, INSIDE_ROOT, KEY_ROOT, PRESENTED_ROOT,
    REPLY_ROOT, REQUEST_ROOT, TICKET_ROOT, lay_confirmation, lay_inside_issue, lay_issue, lay_key,
    lay_presented, lay_request,
};
use sending::{Prepared, plan_messages};

// The nodes of the first and the last message in their draft; where there is one message its node is named twice.
#[derive(Clone, Copy)]
pub struct Roots {
    pub first: usize,
    pub last: usize,
}

fn one(root: usize) -> Option<Roots>
    ensures { result ≡ one root }
{
    Some(Roots {
        first: root,
        last: root,
    })
}

// Step 3 sends two messages, or one that has both parts; step 4 the authenticator, or the pair that it stands in.
fn roots_of(sends: Sends) -> Option<Roots>
    ensures { result ≡ roots_of sends }
{
    match sends {
        Sends::Nothing => None,
        Sends::Request { .. } => one(REQUEST_ROOT),
        Sends::Issue { form, .. } => match form {
            Form::Parallel => Some(Roots {
                first: REPLY_ROOT,
                last: TICKET_ROOT,
            }),
            Form::Kerberos5 => one(BESIDE_ROOT),
            Form::Kerberos4 => one(INSIDE_ROOT),
        },
        Sends::Presented { form, .. } => match form {
            Form::Parallel => one(AUTHENTICATOR_ROOT),
            Form::Kerberos5 | Form::Kerberos4 => one(PRESENTED_ROOT),
        },
        Sends::Confirmation { .. } => one(CONFIRMATION_ROOT),
        Sends::Key(_) => one(KEY_ROOT),
    }
}

// Step 3: the parts side by side, or the ticket inside the reply.
fn issue_draft(form: Form, k: u16, a: u16, b: u16, ts: u32, n: u16) -> [Node; 16]
    ensures { result ≡ issue_draft_of form k a b ts n }
{
    match form {
        Form::Parallel | Form::Kerberos5 => lay_issue(k, a, b, ts, n),
        Form::Kerberos4 => lay_inside_issue(k, a, b, ts, n),
    }
}

// The messages, laid out. Apart from what calls it, so that a step that sends nothing does not clear the draft.
#[inline(never)]
fn draft_of(sends: Sends) -> [Node; 16]
    ensures { result ≡ draft_of sends }
{
    match sends {
        Sends::Nothing => [Node::Time(0); NODES],
        Sends::Request { a, b, n } => lay_request(a, b, n),
        Sends::Issue {
            form,
            k,
            a,
            b,
            ts,
            n,
        } => issue_draft(form, k, a, b, ts, n),
        Sends::Presented { a, ta, k, x, .. } => lay_presented(a, ta, k, x),
        Sends::Confirmation { ta, k } => lay_confirmation(ta, k),
        Sends::Key(k) => lay_key(k),
    }
}

// Plans the messages in `words`.
pub fn plan_sends(terms: &[u64], count: usize, sends: Sends, words: &mut [u64]) -> Prepared
    requires { CanSend terms.now count sends × (length words.old ≡ 32) }
    ensures { PlanFor terms.now count (messages_of terms.now sends) words.new result }
{
    match roots_of(sends) {
        Some(roots) => {
            let draft = draft_of(sends);
            plan_messages(terms, count, &draft, roots.first, roots.last, words)
        }
        None => Prepared {
            count: 0,
            marks: None,
        },
    }
}
