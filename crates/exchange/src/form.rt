// The forms of the Kerberos exchange, and the constant table of the rule sets' numbers.
ghost use Rattle.std.specs.Prelude.{◌≡◌};
ghost use Rattle.exchange.specs.Forms.{form_of};

// How the server's ticket for the responder gets there: sent apart; carried by the initiator, beside the server's reply to it; carried
// inside that reply.
#[derive(Clone, Copy)]
pub enum Form {
    Parallel,
    Kerberos5,
    Kerberos4,
}

// How many rule sets there are; a number from here on names none.
pub const RULE_SETS: u8 = 3;

const FORMS: [Form; 3] = [Form::Parallel, Form::Kerberos5, Form::Kerberos4];

// The form of a rule set; that of no rule set is not looked at.
#[tactic(auto, unfolding(crate::specs::Forms::forms))]
pub fn form_of(rules: u8) -> Form
    ensures { result ≡ form_of rules }
{
    FORMS.get(rules as usize).copied().unwrap_or(Form::Parallel)
}
