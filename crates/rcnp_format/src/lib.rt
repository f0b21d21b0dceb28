// What reading and writing dialect R share (document 02, #101): the number of words, the ids of regions and the sizes that they allow.
#![tactic(auto)]

ghost use Rattle.std.specs.Prelude.{◌≡◌, eqb};
ghost use Rattle.rcnp_layout.specs.Event.{id_of, form_of};
ghost use Rattle.rcnp_layout.specs.Layout.{allowed_size};

// An event has from 2 to 4,096 words.
pub const SMALLEST_EVENT: usize = 2;

pub const LARGEST_EVENT: usize = 4096;

// The id of the check sum region, which ends an event.
pub const CHECK_SUM: u32 = 15;

// The forms of a region before the check sum, by their ids (document 003).
#[derive(Clone, Copy, Debug, PartialEq, Eq)]
pub enum Form {
    InputRegister = 2,
    Adc = 3,
    Tdc = 4,
    Scaler = 6,
    Vdc = 7,
    Pcos = 10,
    AdcLas = 11,
    TdcLas = 12,
    Fera = 13,
    Feret = 14,
}

impl Form {
    ghost use Rattle.rcnp_layout.specs.Event.{id_of};
    ghost use Rattle.rcnp_layout.specs.Layout.{allowed_size};
    ghost use Rattle.rcnp_format.specs.Form.{form, form_with_id};

    // The form of an id. A region before the check sum may have no other id. (An Option and no TryFrom, since a caller refuses by a number of its own.)
    #[inline(always)]
    #[tactic(auto, unfolding(crate::specs::Form::form_with_id))]
    pub fn of(id: u32) -> Option<Form>
        ensures { result ≡ form_with_id id }
    {
        match id {
            2 => Some(Form::InputRegister),
            3 => Some(Form::Adc),
            4 => Some(Form::Tdc),
            6 => Some(Form::Scaler),
            7 => Some(Form::Vdc),
            10 => Some(Form::Pcos),
            11 => Some(Form::AdcLas),
            12 => Some(Form::TdcLas),
            13 => Some(Form::Fera),
            14 => Some(Form::Feret),
            _ => None,
        }
    }

    pub fn id(self) -> u32
        ensures { result ≡ id_of (form self) }
    {
        self as u32
    }

    // Whether a region of this form may have this size: scalers an even one, the input register 1.
    pub fn allows_size(self, size: u32) -> bool
        ensures { result ≡ allowed_size (form self) size }
    {
        match self {
            Form::InputRegister => size == 1,
            Form::Scaler => size % 2 == 0,
            _ => true,
        }
    }
}

// Whether a region before the check sum may have this id.
#[tactic(auto, using(crate::proofs::Forms::form_there))]
pub fn has_form(id: u32) -> bool
    ensures { result ≡ eqb id (id_of (form_of id)) }
{
    Form::of(id).is_some()
}

// Whether a region before the check sum may have this size, by its id. (An id that `has_form` does not take is judged as the input register's, as in the
// definition.)
pub fn allows_size(id: u32, size: u32) -> bool
    ensures { result ≡ allowed_size (form_of id) size }
{
    match Form::of(id) {
        Some(form) => form.allows_size(size),
        None => Form::InputRegister.allows_size(size),
    }
}
