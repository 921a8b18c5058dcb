//! What the plans of requests that make, show and rename images keep to: laws, each the contract of
//! a function that does nothing.
ghost use Rattle.std.specs.Prelude.{◌≡◌, ℕ, List, [], ◌∷◌, true};
ghost use Rattle.rbd_commands.specs.declared.command.Command.{Command};
ghost use Rattle.rbd_commands.specs.declared.command.Command.TheVariants.{List as ListAll, Info, Rename, SnapList, Used};
ghost use Rattle.rbd_commands.specs.declared.command.Shape.{Shape};
ghost use Rattle.rbd_kinds.specs.declared.header.HeaderView.{HeaderView};
ghost use Rattle.rbd_kinds.specs.declared.header.SnapView.{SnapView};
ghost use Rattle.rbd_kinds.specs.declared.id.SiteId.{SiteId};
ghost use Rattle.rbd_kinds.specs.declared.layout.Layout.{Layout};
ghost use Rattle.rbd_kinds.specs.Form.{IsNewHeader};
ghost use Rattle.rbd_layout.specs.Asked.{KeepsLimits, layout_of};
ghost use Rattle.rbd_machine.specs.Lawful.{IsLawfulRequest};
ghost use Rattle.rbd_machine.specs.Plan.{Plan, Return, Goto, IsClosed, without_labels};
ghost use Rattle.rbd_kinds.specs.declared.machine.Fed.{Fed};
ghost use Rattle.rbd_kinds.specs.declared.reply.Reply.{Reply};
ghost use Rattle.rbd_kinds.specs.declared.reply.Reply.TheVariants.{Done, Info as ShownHeader, Names, Snaps, Used as ShownUsed};
ghost use Rattle.rbd_machine.specs.Path.{Answered, IsBounded, IsWalk};
ghost use Rattle.rbd_machine.specs.declared.seat.Seat.{Seat};
ghost use Rattle.rbd_image.specs.Create.{IsCreate, IsCreatePlan};
ghost use Rattle.rbd_header.specs.Header.{new_header};
ghost use Rattle.rbd_image.specs.Listing.{is_listing, listing_plan};
ghost use Rattle.rbd_machine.specs.Refused.{AreGiven};
ghost use Rattle.rbd_meaning.specs.Creates.{MakesOne};
ghost use Rattle.rbd_meaning.specs.Listings.{ShowsHeader, ShowsUsed, names_told, renamed_to, shown_snaps};
ghost use Rattle.rbd_meaning.specs.Meant.{IsMeantBy};

/// A `create` has three operations at most: one draws the id, one makes the map of the objects, and
/// one makes the header.
pub fn creates_draw_and_make()
    ensures { (home : SiteId) (command : Command) (plan : Plan) → IsCreatePlan home command plan → IsBounded plan 3 }
{}

/// An `ls` has at most one operation, however many images there are.
pub fn names_are_listed_at_once()
    ensures { (home : SiteId) → IsBounded (listing_plan home ListAll) 1 }
{}

/// An `info` and a `snap ls` have at most two operations: the look-up of the image and a look at
/// its header. A `du` has one more, which tells the states of the head's map.
pub fn listings_look_once()
    ensures info { (home : SiteId) (image : List ℕ) → IsBounded (listing_plan home (Info image)) 2 }
    ensures snaps { (home : SiteId) (image : List ℕ) → IsBounded (listing_plan home (SnapList image)) 2 }
    ensures any { (home : SiteId) (command : Command) → IsBounded (listing_plan home command) 3 }
{}

/// A `rename` has one operation.
pub fn renames_ask_once()
    ensures { (home : SiteId) (from to : List ℕ) → IsBounded (listing_plan home (Rename from to)) 1 }
{}

/// None of them begins a part again.
pub fn plans_go_to_no_label()
    ensures create { (home : SiteId) (command : Command) (plan : Plan)
        → IsCreatePlan home command plan → IsClosed Goto plan }
    ensures listing { (home : SiteId) (command : Command) → IsClosed Goto (listing_plan home command) }
{}

/// A `create` begins with no knowledge and asks only for what it may: the header that it makes is a
/// new one, under an id that it drew itself, and behind a map of all of its objects.
pub fn creates_are_lawful()
    ensures { (home : SiteId) (command : Command) (plan : Plan)
        → IsCreatePlan home command plan → IsLawfulRequest (without_labels plan) }
{}

/// An `ls`, an `info`, a `snap ls`, a `du` and a `rename` begin with no knowledge and ask only for
/// what they may: anybody may change a name, and the others only look.
pub fn listings_are_lawful()
    ensures { (home : SiteId) (command : Command) → IsLawfulRequest (without_labels (listing_plan home command)) }
{}

/// The header of a new image is one that a site may make.
pub fn new_headers_are_in_form()
    ensures { (layout : Layout) (size : ℕ) → KeepsLimits layout size → IsNewHeader (new_header layout size) }
{}

/// A `create` is done only where its shape is within the limits, and by exactly three operations:
/// an id was drawn for the name, and the map and the header of a new image were made under it.
pub fn creates_make_one()
    ensures made { (site : SiteId) (name : List ℕ) (size : ℕ) (shape : Shape) (plan : Plan) (feds : List Fed)
        (steps : List Answered)
        → IsCreate site name size shape plan → KeepsLimits (layout_of shape) size
        → IsWalk Goto plan feds steps (Return Done) → MakesOne site name (new_header (layout_of shape) size) steps }
    ensures within { (site : SiteId) (name : List ℕ) (size : ℕ) (shape : Shape) (plan : Plan) (feds : List Fed)
        (steps : List Answered)
        → IsCreate site name size shape plan → (KeepsLimits (layout_of shape) size → ⊥)
        → IsWalk Goto plan feds steps (Return Done) → ⊥ }
{}

/// An `ls` shows the names that the site told, an `info` the header of the image that its name led
/// to, and a `snap ls` that header's snapshots. A `du` shows how many objects the header's size
/// has, and how many of them have another state than 0 in the head's map, where headers that are
/// told are in form. None of them has done anything else.
pub fn listings_show_what_was_told()
    ensures names { (site : SiteId) (feds : List Fed) (steps : List Answered) (names : List (List ℕ))
        → IsWalk Goto (listing_plan site ListAll) feds steps (Return (Names names))
        → steps ≡ names_told site names ∷ [] }
    ensures info { (site : SiteId) (image : List ℕ) (feds : List Fed) (steps : List Answered) (header : HeaderView)
        → IsWalk Goto (listing_plan site (Info image)) feds steps (Return (ShownHeader header))
        → ShowsHeader site image ShownHeader (ShownHeader header) steps }
    ensures snaps { (site : SiteId) (image : List ℕ) (feds : List Fed) (steps : List Answered) (snaps : List SnapView)
        → IsWalk Goto (listing_plan site (SnapList image)) feds steps (Return (Snaps snaps))
        → ShowsHeader site image shown_snaps (Snaps snaps) steps }
    ensures used { (site : SiteId) (image : List ℕ) (feds : List Fed) (steps : List Answered) (used of : ℕ)
        → AreGiven steps
        → IsWalk Goto (listing_plan site (Used image)) feds steps (Return (ShownUsed used of))
        → ShowsUsed site image used of steps }
{}

/// A `rename` is done only where the site changed the name, and nothing else was done.
pub fn renames_change_the_name()
    ensures { (site : SiteId) (from to : List ℕ) (feds : List Fed) (steps : List Answered)
        → IsWalk Goto (listing_plan site (Rename from to)) feds steps (Return Done)
        → steps ≡ renamed_to site from to ∷ [] }
{}

/// A reply is meant by its command, behind the operations that were done (`IsMeantBy` of
/// `rbd_meaning`), where each answer is one that its operation can give to who owns what it
/// changes: it was done or told when a request isn't refused, and when it is, the last answer
/// refused it, and none before. No other reply comes.
pub fn replies_are_meant()
    ensures create { (seat : Seat) (command : Command) (plan : Plan) (feds : List Fed) (steps : List Answered)
        (reply : Reply)
        → IsCreatePlan seat.home command plan → AreGiven steps
        → IsWalk Goto plan feds steps (Return reply) → IsMeantBy seat command steps reply }
    ensures listing { (seat : Seat) (command : Command) (feds : List Fed) (steps : List Answered) (reply : Reply)
        → is_listing command ≡ true → AreGiven steps
        → IsWalk Goto (listing_plan seat.home command) feds steps (Return reply) → IsMeantBy seat command steps reply }
{}
