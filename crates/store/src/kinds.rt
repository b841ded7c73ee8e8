// The sixteen calls by what they speak of: the whole data base, a set of masters, a path of a set of points, or any set.
ghost use Rattle.std.specs.Prelude.{◌≡◌};
ghost use Rattle.store.specs.Kinds.{master_operation, point_operation, operation_kind};

use terms::Operation;

// The calls on masters: ADD-M, DEL-M, READM, WRITM, RQLOC.
#[derive(Clone, Copy)]
pub enum OnMasters {
    Add,
    Delete,
    Read,
    Write,
    Locate,
}

// The calls on points: READV, READR, READD, WRITV, ADDVC, ADDVB, ADDVA, DELVD.
#[derive(Clone, Copy)]
pub enum OnPoints {
    ReadNext,
    ReadPrior,
    Read,
    Write,
    AddLast,
    AddBefore,
    AddAfter,
    Delete,
}

#[derive(Clone, Copy)]
pub enum Kind {
    Format,
    SignOn,
    Sweep,
    Masters(OnMasters),
    Points(OnPoints),
    Unknown,
}

impl From<OnMasters> for Operation {
    ghost from_gives = { λ m o. o ≡ master_operation m };

    fn from(m: OnMasters) -> Operation {
        match m {
            OnMasters::Add => Operation::AddM,
            OnMasters::Delete => Operation::DelM,
            OnMasters::Read => Operation::Readm,
            OnMasters::Write => Operation::Writm,
            OnMasters::Locate => Operation::Rqloc,
        }
    }
}

impl From<OnPoints> for Operation {
    ghost from_gives = { λ p o. o ≡ point_operation p };

    fn from(p: OnPoints) -> Operation {
        match p {
            OnPoints::ReadNext => Operation::Readv,
            OnPoints::ReadPrior => Operation::Readr,
            OnPoints::Read => Operation::Readd,
            OnPoints::Write => Operation::Writv,
            OnPoints::AddLast => Operation::Addvc,
            OnPoints::AddBefore => Operation::Addvb,
            OnPoints::AddAfter => Operation::Addva,
            OnPoints::Delete => Operation::Delvd,
        }
    }
}

impl From<Operation> for Kind {
    ghost from_gives = { λ o k. k ≡ operation_kind o };

    fn from(o: Operation) -> Kind {
        match o {
            Operation::Formt => Kind::Format,
            Operation::Sinon => Kind::SignOn,
            Operation::AddM => Kind::Masters(OnMasters::Add),
            Operation::DelM => Kind::Masters(OnMasters::Delete),
            Operation::Readm => Kind::Masters(OnMasters::Read),
            Operation::Writm => Kind::Masters(OnMasters::Write),
            Operation::Rqloc => Kind::Masters(OnMasters::Locate),
            Operation::Rdnxt => Kind::Sweep,
            Operation::Readv => Kind::Points(OnPoints::ReadNext),
            Operation::Readr => Kind::Points(OnPoints::ReadPrior),
            Operation::Readd => Kind::Points(OnPoints::Read),
            Operation::Writv => Kind::Points(OnPoints::Write),
            Operation::Addvc => Kind::Points(OnPoints::AddLast),
            Operation::Addvb => Kind::Points(OnPoints::AddBefore),
            Operation::Addva => Kind::Points(OnPoints::AddAfter),
            Operation::Delvd => Kind::Points(OnPoints::Delete),
            Operation::Unknown => Kind::Unknown,
        }
    }
}
